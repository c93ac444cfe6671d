// The character check, and validity of a whole text.
ghost use Rattle.std.specs.Prelude.{◌≡◌, true, false, ◌+◌, ◌-◌, ◌<◌, ◌≤◌, length, get_or, drop};
ghost use Rattle.utf8.specs.Class.{class_of};
ghost use Rattle.utf8.specs.Utf8.{between, low_of, high_of, two_bytes, three_bytes, four_bytes, long_len, no_start, wanted, start_bits, least_of, value_fault, fault_from, char_fault, refused_by, char_at, valid_utf8};
ghost use Rattle.utf8.specs.inner.Checks.{AllLow, LowFrom, LowBlocks, ValidUntil};

use crate::classes::Classes;
use prelude::refusals::Refusal;
use prelude::slices;

// Whether a byte is from one to another.
pub fn in_range(low: u8, high: u8, b: u8) -> bool
    ensures { result ≡ between low high b }
{
    if b < low {
        return false;
    }
    b <= high
}

fn low_of(k: u8) -> u8
    ensures { result ≡ low_of k }
{
    if k == 8 {
        return 0xa0;
    }
    if k == 11 {
        return 0x90;
    }
    0x80
}

fn high_of(k: u8) -> u8
    ensures { result ≡ high_of k }
{
    if k == 9 {
        return 0x9f;
    }
    if k == 12 {
        return 0x8f;
    }
    0xbf
}

fn two_bytes(b: u8) -> usize
    ensures { result ≡ two_bytes b }
{
    if in_range(0x80, 0xbf, b) {
        return 2;
    }
    0
}

fn three_bytes(k: u8, b: u8, c: u8) -> usize
    ensures { result ≡ three_bytes k b c }
{
    if in_range(low_of(k), high_of(k), b) {
        if in_range(0x80, 0xbf, c) {
            return 3;
        }
        return 0;
    }
    0
}

fn four_bytes(k: u8, b: u8, c: u8, d: u8) -> usize
    ensures { result ≡ four_bytes k b c d }
{
    if in_range(low_of(k), high_of(k), b) {
        if in_range(0x80, 0xbf, c) {
            if in_range(0x80, 0xbf, d) {
                return 4;
            }
            return 0;
        }
        return 0;
    }
    0
}

// The length of the character at a place whose first byte has class k, a lead's; 0 where none stands.
pub fn long_len(s: &[u8], at: usize, k: u8) -> usize
    ensures { result ≡ long_len k (get_or (drop at s.now) 1 0) (get_or (drop at s.now) 2 0) (get_or (drop at s.now) 3 0) }
{
    if k < 7 {
        return two_bytes(slices::byte_at(s, at, 1));
    }
    if k < 10 {
        return three_bytes(k, slices::byte_at(s, at, 1), slices::byte_at(s, at, 2));
    }
    if k < 13 {
        return four_bytes(
            k,
            slices::byte_at(s, at, 1),
            slices::byte_at(s, at, 2),
            slices::byte_at(s, at, 3),
        );
    }
    0
}

fn is_surrogate(v: u32) -> bool
    ensures { result ≡ between 0xd800 0xdfff v }
{
    if v < 0xd800 {
        return false;
    }
    v <= 0xdfff
}

// The fault of a number that bytes write, where so many bytes need at least another.
fn value_fault(least: u32, v: u32) -> Option<Refusal>
    ensures { result ≡ value_fault least v }
{
    let half = is_surrogate(v);
    if v < least {
        return Some(Refusal::Utf8Overlong);
    }
    if half {
        return Some(Refusal::Utf8Surrogate);
    }
    if 0x10ffff < v {
        return Some(Refusal::Utf8TooLarge);
    }
    None
}

// Whether a byte is no start.
fn no_start(a: u8) -> bool
    ensures { result ≡ no_start a }
{
    if in_range(0x80, 0xbf, a) {
        return true;
    }
    0xf8 <= a
}

// How many continuation bytes a start asks for.
fn wanted(a: u8) -> usize
    ensures { result ≡ wanted a }
{
    if a < 0x80 {
        return 0;
    }
    if a < 0xe0 {
        return 1;
    }
    if a < 0xf0 {
        return 2;
    }
    3
}

// What a start itself gives of the number.
fn start_bits(a: u8) -> u32
    requires { no_start a ≡ false }
    ensures { result ≡ start_bits a }
{
    if a < 0x80 {
        return a as u32;
    }
    if a < 0xe0 {
        return (a - 0xc0) as u32;
    }
    if a < 0xf0 {
        return (a - 0xe0) as u32;
    }
    (a - 0xf0) as u32
}

// The least number that needs as many bytes.
fn least_of(a: u8) -> u32
    ensures { result ≡ least_of a }
{
    if a < 0x80 {
        return 0;
    }
    if a < 0xe0 {
        return 0x80;
    }
    if a < 0xf0 {
        return 0x800;
    }
    0x10000
}

// The fault of a start and what stands behind it.
fn fault_from(s: &[u8], from: usize, a: u8) -> Option<Refusal>
    requires { no_start a ≡ false }
    ensures { result ≡ fault_from a (drop from s.now) }
{
    let n = wanted(a);
    let mut v = start_bits(a);
    for k in 0..n {
        let b = slices::byte_at(s, from, k);
        if !in_range(0x80, 0xbf, b) {
            return Some(Refusal::Utf8Incomplete);
        }
        v = v * 0x40 + (b - 0x80) as u32;
    }
    value_fault(least_of(a), v)
}

// The fault of what stands at a place; none where a character does. Apart from the check, so that naming costs only where a fault is.
fn fault_at(s: &[u8], at: usize) -> Option<Refusal>
    ensures { result ≡ char_fault (drop at s.now) }
{
    if s.len() <= at {
        return Some(Refusal::Utf8Incomplete);
    }
    let a = s[at];
    if no_start(a) {
        return Some(Refusal::Utf8BadEncoding);
    }
    fault_from(s, at + 1, a)
}

// What is refused at a place where no character stands. Never put where it is called, so that `long_at` stays small.
#[inline(never)]
fn no_char(s: &[u8], at: usize) -> Result<usize, Refusal>
    ensures { result ≡ refused_by (char_fault (drop at s.now)) }
{
    match fault_at(s, at) {
        Some(fault) => Err(fault),
        None => Ok(0),
    }
}

// The character at a place that begins with a byte of class k, no ASCII. Put where it is called: a Result that is handed back costs what reading the character does.
#[inline(always)]
pub fn long_at(s: &[u8], at: usize, k: u8) -> Result<usize, Refusal>
    requires { (at < length s.now) × (k ≡ class_of (get_or s.now at 0)) × (5 ≤ k) }
    ensures { result ≡ char_at (drop at s.now) }
{
    if k < 6 {
        return no_char(s, at);
    }
    let n = long_len(s, at, k);
    if n == 0 {
        return no_char(s, at);
    }
    Ok(n)
}

// The length of the character at a place, or its fault. Never put where it is called, so that its callers stay small: most characters they know without it.
#[inline(never)]
pub fn char_at(t: &Classes, s: &[u8], at: usize) -> Result<usize, Refusal>
    ensures { result ≡ char_at (drop at s.now) }
{
    if s.len() <= at {
        return Err(Refusal::Utf8Incomplete);
    }
    let k = t.class(s[at]);
    if k < 5 {
        return Ok(1);
    }
    long_at(s, at, k)
}

// Whether one of n bytes isn't ASCII, or is DEL; without an early end, so that they are compared at once. A comparison with 128 would
// become a longer test of their signs.
pub fn any_high(s: &[u8], at: usize, n: usize) -> bool
    requires { at + n ≤ length s.now }
    ensures { (result ≡ false → AllLow s.now at n) × (AllLow s.now at n → result ≡ false) }
{
    let mut found = false;
    for k in 0..n {
        found = found | (s[at + k] >= 127);
    }
    found
}

// A place behind blocks of n bytes of ASCII. A caller's n is a constant, so that a block is still compared at once.
fn ascii_blocks(s: &[u8], from: usize, n: usize) -> usize
    requires { (from ≤ length s.now) × (0 < n) }
    ensures { LowBlocks s.now from n result }
{
    let mut at = from;
    // By while: a turn takes a whole block, and what is left at last is less than one.
    while n <= s.len() - at {
        if any_high(s, at, n) {
            return at;
        }
        at += n;
    }
    at
}

// Whether the bytes from a place on, and the text's last sixteen, are ASCII and none is DEL: by blocks, and where less than one is left by
// the last one of the text.
pub fn ascii_from(s: &[u8], from: usize) -> bool
    requires { from ≤ length s.now }
    ensures { (result ≡ true → LowFrom s.now from) × (LowFrom s.now from → result ≡ true) }
{
    let n = s.len();
    if n < 16 {
        return false;
    }
    let at = ascii_blocks(s, from, 16);
    if 16 <= n - at {
        return false;
    }
    !any_high(s, n - 16, 16)
}

// The same as `long_len`, with the common lengths at hand: a call costs more than they do.
fn near_len(s: &[u8], at: usize, k: u8) -> usize
    ensures { result ≡ long_len k (get_or (drop at s.now) 1 0) (get_or (drop at s.now) 2 0) (get_or (drop at s.now) 3 0) }
{
    if k < 7 {
        return two_bytes(slices::byte_at(s, at, 1));
    }
    if k < 10 {
        return three_bytes(k, slices::byte_at(s, at, 1), slices::byte_at(s, at, 2));
    }
    long_len(s, at, k)
}

// The place behind the characters from a place on, one by one until an end is reached, or where none stands.
fn chars_until(t: &Classes, s: &[u8], from: usize, end: usize) -> usize
    requires { (from ≤ length s.now) × (end ≤ length s.now) }
    ensures { ValidUntil s.now from end result }
{
    let mut at = from;
    // By while: a turn goes on by as much as what stands there takes.
    while at < end {
        let k = t.class(s[at]);
        if k < 5 {
            at += 1;
            continue;
        }
        if k < 6 {
            return at;
        }
        let n = near_len(s, at, k);
        if n == 0 {
            return at;
        }
        at += n;
    }
    at
}

// Whether a text is valid UTF-8, by blocks of N bytes of ASCII. What ends the blocks is passed one by one, and then they are tried again. A block
// is compared at once only where its length is a constant, so each length has a function of its own.
fn valid_by<const N: usize>(t: &Classes, s: &[u8]) -> bool
    requires { 0 < N }
    ensures { result ≡ valid_utf8 s.now }
{
    let mut at = 0;
    // By while: a turn goes on by as much as what stands there takes.
    while at < s.len() {
        let mid = ascii_blocks(s, at, N);
        let end = slices::soon(s.len(), mid, N);
        let next = chars_until(t, s, mid, end);
        if next < end {
            return false;
        }
        at = next;
    }
    true
}

// Whether a text is valid UTF-8, with the table lent.
pub fn valid_in(t: &Classes, s: &[u8]) -> bool
    ensures { result ≡ valid_utf8 s.now }
{
    valid_by::<16>(t, s)
}

// The same for a text that is short or soon has a character of several bytes.
pub fn valid_near(t: &Classes, s: &[u8]) -> bool
    ensures { result ≡ valid_utf8 s.now }
{
    valid_by::<8>(t, s)
}

// Whether a text is valid UTF-8.
pub fn valid(s: &[u8]) -> bool
    ensures { result ≡ valid_utf8 s.now }
{
    let t = Classes::new();
    valid_in(&t, s)
}
