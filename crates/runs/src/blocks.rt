// Literal characters by whole blocks of bytes. A block is tested without an early end, so that its bytes are compared at once.
ghost use Rattle.std.specs.Prelude.{◌≡◌, true, false, ℕ, ◌+◌, ◌<◌, ◌≤◌, length, get_or, drop};
ghost use Rattle.utf8.specs.Utf8.{tail};
ghost use Rattle.notation.specs.Literals.{literal_len};
ghost use Rattle.runs.specs.inner.Blocks.{Alone, Paired, AllAlone, AllPaired, Running, continued};

use crate::shorts;
use notation::styles;
use notation::styles::Style;
use prelude::slices;

// A control, the backslash, the closing quote, or a byte that is not ASCII.
pub fn odd(q: u8, b: u8) -> bool
    ensures { (result ≡ false → Alone q b) × (Alone q b → result ≡ false) }
{
    (b < 32) | ((b >= 128) | ((b == b'\\') | (b == q)))
}

// A continuation byte.
pub fn continues(b: u8) -> bool
    ensures { result ≡ tail b }
{
    (0x80 <= b) & (b <= 0xbf)
}

// A byte that stands in no literal character of one or two bytes, or that the next byte can't follow.
fn odd_pair(q: u8, b: u8, c: u8) -> bool
    ensures { result ≡ false → Paired q b c }
{
    (b < 32)
        | ((b >= 0xe0)
            | ((b == b'\\')
                | ((b == q) | ((b == 0xc0) | ((b == 0xc1) | (continues(c) != (b >= 0xc0)))))))
}

// Whether one of n bytes is odd.
pub fn any_odd(q: u8, s: &[u8], at: usize, n: usize) -> bool
    requires { at + n ≤ length s.now }
    ensures { (result ≡ false → AllAlone q s.now at n) × (AllAlone q s.now at n → result ≡ false) }
{
    let mut found = false;
    for k in 0..n {
        found = found | odd(q, s[at + k]);
    }
    found
}

// Whether one of n bytes is odd, from one place on or from another. One loop for both: two of constant length the compiler would unroll, and
// test a byte twice in a wider word.
fn any_odd_beside(q: u8, s: &[u8], a: usize, b: usize, n: usize) -> bool
    requires { (a + n ≤ length s.now) × (b + n ≤ length s.now) }
    ensures { result ≡ false → AllAlone q s.now a n × AllAlone q s.now b n }
{
    let mut found = false;
    for k in 0..n {
        found = found | (odd(q, s[a + k]) | odd(q, s[b + k]));
    }
    found
}

// A place where something was found, and past all places else.
fn place_of(found: bool, k: u8) -> u8
    ensures { found ≡ true → result ≡ k }
{
    if found { k } else { 32 }
}

fn lesser(a: u8, b: u8) -> u8
    ensures { (result ≤ a) × (result ≤ b) }
{
    if a < b { a } else { b }
}

// The first odd one of 32 bytes, 32 where none is: the least of their places, so that all are compared at once. Of a loop of sixteen turns
// the compiler would take the bytes apart.
pub(crate) fn first_odd(q: u8, s: &[u8], at: usize) -> usize
    requires { at + 32 ≤ length s.now }
    ensures { (k : ℕ) → k < 32 → k < result → Alone q (get_or s.now (at + k) 0) }
{
    let mut first: u8 = 32;
    for k in 0..32 {
        first = lesser(first, place_of(odd(q, s[at + k]), k as u8));
    }
    first as usize
}

// Whether one of n bytes is odd beside the next.
pub(crate) fn any_odd_pair(q: u8, s: &[u8], at: usize, n: usize) -> bool
    requires { at + n < length s.now }
    ensures { result ≡ false → AllPaired q s.now at n }
{
    let mut found = false;
    for k in 0..n {
        found = found | odd_pair(q, s[at + k], s[at + k + 1]);
    }
    found
}

// A place, or the next one where the byte there is a continuation.
pub(crate) fn behind(s: &[u8], e: usize) -> usize
    requires { e < length s.now }
    ensures { result ≡ e + continued (tail (get_or s.now e 0)) }
{
    if continues(s[e]) {
        return e + 1;
    }
    e
}

// Blocks of n bytes of ASCII. A caller's n is a constant, so that a block is still compared at once.
fn alone_blocks(s: &[u8], from: usize, style: Style, n: usize) -> usize
    requires { (from ≤ length s.now) × (0 < n) }
    ensures { Running style s.now from result }
{
    let mut at = from;
    // By while: a turn takes a whole block, and what is left at last is less than one.
    while n <= s.len() - at {
        if any_odd(styles::quote_of(style), s, at, n) {
            return at;
        }
        at += n;
    }
    at
}

// A place behind blocks of 32, for runs inside a longer text, which are likely to end soon; what is left of the text goes one by one.
pub(crate) fn thirty_twos(s: &[u8], from: usize, style: Style) -> usize
    requires { from ≤ length s.now }
    ensures { Running style s.now from result }
{
    let mut at = from;
    // By while: a turn takes a whole block, and what is left at last is less than one.
    while 32 <= s.len() - at {
        let k = first_odd(styles::quote_of(style), s, at);
        if k < 32 {
            return at + k;
        }
        at += 32;
    }
    shorts::one_by_one(s, at, style)
}

// Whether a byte stands at a place that is no part of a literal character.
pub(crate) fn ends(s: &[u8], at: usize, style: Style) -> bool
    ensures { result ≡ true → 0 ≡ literal_len style (drop at s.now) }
{
    if s.len() <= at {
        return false;
    }
    let b = s[at];
    (b < 32) | ((b == b'\\') | (b == styles::quote_of(style)))
}

// Blocks of ASCII and characters of two bytes.
fn pair_blocks(s: &[u8], from: usize, style: Style) -> usize
    requires { from ≤ length s.now }
    ensures { Running style s.now from result }
{
    let mut at = from;
    // By while: a turn takes a whole block, and what is left at last is less than one.
    while 33 <= s.len() - at {
        if continues(s[at]) {
            return at;
        }
        if any_odd_pair(styles::quote_of(style), s, at, 32) {
            return at;
        }
        at = behind(s, at + 32);
    }
    at
}

// Where less than 64 bytes and more than the closing quote are left, two blocks of ASCII that may overlap; part of them may be passed
// already.
fn last_alone(s: &[u8], from: usize, style: Style) -> usize
    requires { from ≤ length s.now }
    ensures { Running style s.now from result }
{
    let n = s.len();
    if n < 33 {
        return from;
    }
    if 64 <= n - from {
        return from;
    }
    if n - from < 2 {
        return from;
    }
    let q = styles::quote_of(style);
    let p = n - 33;
    if any_odd_beside(q, s, slices::least(from, p), p, 32) {
        return from;
    }
    n - 1
}

// Where less than a block and more than the closing quote is left, the last block of the text, though part of it is passed already.
fn last_pairs(s: &[u8], from: usize, style: Style) -> usize
    requires { from ≤ length s.now }
    ensures { Running style s.now from result }
{
    let n = s.len();
    if n < 33 {
        return from;
    }
    if 33 <= n - from {
        return from;
    }
    if n - from < 2 {
        return from;
    }
    if continues(s[from]) {
        return from;
    }
    if any_odd_pair(styles::quote_of(style), s, n - 33, 32) {
        return from;
    }
    behind(s, n - 1)
}

// The last byte of a text, if it alone is left.
fn last_byte(s: &[u8], from: usize, style: Style) -> usize
    requires { from ≤ length s.now }
    ensures { Running style s.now from result }
{
    if s.len() - from != 1 {
        return from;
    }
    if odd(styles::quote_of(style), s[from]) {
        return from;
    }
    from + 1
}

// All but the last byte of more than 33: ASCII is cheapest, so it comes first; a last block saves the byte loop.
fn long(s: &[u8], from: usize, style: Style) -> usize
    requires { from ≤ length s.now }
    ensures { Running style s.now from result }
{
    let a = alone_blocks(s, from, style, 64);
    let b = last_alone(s, a, style);
    let c = pair_blocks(s, b, style);
    last_pairs(s, c, style)
}

// A place behind literal characters only, as far as blocks go: a character of three or four bytes ends them. Where they reach all but the
// closing quote, the class table needn't be made.
pub fn strides(s: &[u8], from: usize, style: Style) -> usize
    requires { from ≤ length s.now }
    ensures { Running style s.now from result }
{
    if s.len() - from < 34 {
        return shorts::short(s, from, style);
    }
    long(s, from, style)
}

// The same of a text that no quote ends, its last byte too.
pub fn strides_to_end(s: &[u8], from: usize, style: Style) -> usize
    requires { from ≤ length s.now }
    ensures { Running style s.now from result }
{
    let at = strides(s, from, style);
    last_byte(s, at, style)
}
