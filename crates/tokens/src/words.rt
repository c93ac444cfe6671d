// Words, and the values that they name.
ghost use Rattle.std.specs.Prelude.{true, ◌≡◌, ◌<◌, ◌≤◌, length, get_or, drop, IfSome};
ghost use Rattle.tokens.specs.Words.{is_letter, is_digit, is_word, run_of, word_of, same_bytes, word_value};
ghost use Rattle.tokens.specs.inner.Parts.{Spelt, Named};

use prelude::slices;
use utf8::chars;

pub(crate) fn is_letter(x: u8) -> bool
    ensures { result ≡ is_letter x }
{
    if chars::in_range(b'a', b'z', x) {
        return true;
    }
    if chars::in_range(b'A', b'Z', x) {
        return true;
    }
    x == b'_'
}

pub fn is_digit(x: u8) -> bool
    ensures { result ≡ is_digit x }
{
    chars::in_range(b'0', b'9', x)
}

fn is_word(x: u8) -> bool
    ensures { result ≡ is_word x }
{
    if is_letter(x) {
        return true;
    }
    is_digit(x)
}

// The length of the word at a place.
pub fn word_len(s: &[u8], from: usize) -> usize
    requires { from ≤ length s.now }
    ensures { result ≡ length (word_of (drop from s.now)) }
{
    for at in from..s.len() {
        if !is_word(s[at]) {
            return at - from;
        }
    }
    s.len() - from
}

// Whether two texts have the same bytes.
pub fn same(a: &[u8], b: &[u8]) -> bool
    ensures { result ≡ same_bytes a.now b.now }
{
    if a.len() != b.len() {
        return false;
    }
    for i in 0..a.len() {
        if a[i] != b[i] {
            return false;
        }
    }
    true
}

// The kind of the value that a word names, if it names one.
pub fn value_of(word: &[u8]) -> Option<u32>
    ensures { result ≡ word_value word.now }
{
    let null = [b'n', b'u', b'l', b'l'];
    if same(word, &null) {
        return Some(0);
    }
    let no = [b'f', b'a', b'l', b's', b'e'];
    if same(word, &no) {
        return Some(1);
    }
    let yes = [b't', b'r', b'u', b'e'];
    if same(word, &yes) {
        return Some(2);
    }
    None
}

// Whether these three bytes stand k bytes behind a place, and a word ends with them.
fn spells(s: &[u8], at: usize, k: usize, a: u8, b: u8, c: u8) -> bool
    requires { k ≤ 2 }
    ensures { result ≡ true → Spelt (drop at s.now) k a b c }
{
    if slices::byte_at(s, at, k) != a {
        return false;
    }
    if slices::byte_at(s, at, k + 1) != b {
        return false;
    }
    if slices::byte_at(s, at, k + 2) != c {
        return false;
    }
    !is_word(slices::byte_at(s, at, k + 3))
}

// The length of the word at a place, which begins with the byte x, where it names a value. LLVM is told to compile it into its callers:
// called, JSON8's readers took 2 to 4 % more instructions.
#[inline(always)]
pub fn name_len(s: &[u8], at: usize, x: u8) -> Option<usize>
    requires { x ≡ get_or (drop at s.now) 0 0 }
    ensures { IfSome result (λ n. (0 < n) × Named (drop at s.now) x n) }
{
    if x == b't' {
        if spells(s, at, 1, b'r', b'u', b'e') {
            return Some(4);
        }
        return None;
    }
    if x == b'n' {
        if spells(s, at, 1, b'u', b'l', b'l') {
            return Some(4);
        }
        return None;
    }
    if x == b'f' {
        if slices::byte_at(s, at, 1) == b'a' {
            if spells(s, at, 2, b'l', b's', b'e') {
                return Some(5);
            }
        }
    }
    None
}
