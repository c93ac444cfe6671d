// Number tokens by the grammar of RFC 8259, a function for each of its places. The longest run needn't be known: a text that matches
// up to a byte that the run hasn't is the run. Where two ways meet again, the first part answers a place, so that each function has few
// callers and is compiled into them.
ghost use Rattle.std.specs.Prelude.{true, ◌≡◌, ◌+◌, ◌≤◌, ◌<◌, length, get_or, drop, IfSome};
ghost use Rattle.tokens.specs.Words.{is_digit, run_of};
ghost use Rattle.tokens.specs.Numbers.{is_e, is_sign, is_number, in_exp, exp_digits, behind_e, behind_frac, in_frac, behind_point, behind_int, int, number_kind, kind_told, found, ends, number_from, number_at};
ghost use Rattle.tokens.specs.inner.Parts.{Leads};

use crate::words;
use prelude::slices;

// A number token that matches the grammar whole: its kind and its length. The functions of the grammar's places count the length from the
// text's first byte on.
#[derive(Clone, Copy)]
pub struct Number {
    pub kind: u32,
    pub len: usize,
}

fn is_e(x: u8) -> bool
    ensures { result ≡ is_e x }
{
    if x == b'e' {
        return true;
    }
    x == b'E'
}

fn is_sign(x: u8) -> bool
    ensures { result ≡ is_sign x }
{
    if x == b'-' {
        return true;
    }
    x == b'+'
}

fn is_number(x: u8) -> bool
    ensures { result ≡ is_number x }
{
    if words::is_digit(x) {
        return true;
    }
    if is_sign(x) {
        return true;
    }
    if x == b'.' {
        return true;
    }
    is_e(x)
}

// The place behind the digits from a place on. By while: for was tried, where LLVM counts a fraction's digits twice, and number_at took
// a tenth more instructions for long numbers.
fn digits(s: &[u8], from: usize) -> usize
    requires { from ≤ length s.now }
    ensures { result ≡ from + length (run_of is_digit (drop from s.now)) }
{
    let mut at = from;
    while at < s.len() {
        if !words::is_digit(s[at]) {
            return at;
        }
        at += 1;
    }
    at
}

// The token must end here.
fn finish(s: &[u8], at: usize, kind: u32) -> Option<Number>
    requires { 0 < kind }
    ensures { result ≡ number_from (ends kind) at (drop at s.now) }
{
    if is_number(slices::byte_at(s, at, 0)) {
        return None;
    }
    Some(Number { kind, len: at })
}

fn in_exp(s: &[u8], at: usize) -> Option<Number>
    requires { at ≤ length s.now }
    ensures { result ≡ number_from in_exp at (drop at s.now) }
{
    finish(s, digits(s, at), 4)
}

fn exp_digits(s: &[u8], at: usize) -> Option<Number>
    requires { at ≤ length s.now }
    ensures { result ≡ number_from exp_digits at (drop at s.now) }
{
    if words::is_digit(slices::byte_at(s, at, 0)) {
        return in_exp(s, at + 1);
    }
    None
}

// Behind a sign, if one stands here.
fn past_sign(s: &[u8], at: usize) -> usize
    requires { at ≤ length s.now }
    ensures { Leads behind_e exp_digits s.now at result }
{
    if is_sign(slices::byte_at(s, at, 0)) {
        return at + 1;
    }
    at
}

fn behind_e(s: &[u8], at: usize) -> Option<Number>
    requires { at ≤ length s.now }
    ensures { result ≡ number_from behind_e at (drop at s.now) }
{
    exp_digits(s, past_sign(s, at))
}

fn behind_frac(s: &[u8], at: usize) -> Option<Number>
    requires { at ≤ length s.now }
    ensures { result ≡ number_from behind_frac at (drop at s.now) }
{
    if is_e(slices::byte_at(s, at, 0)) {
        return behind_e(s, at + 1);
    }
    finish(s, at, 4)
}

fn in_frac(s: &[u8], at: usize) -> Option<Number>
    requires { at ≤ length s.now }
    ensures { result ≡ number_from in_frac at (drop at s.now) }
{
    behind_frac(s, digits(s, at))
}

fn behind_point(s: &[u8], at: usize) -> Option<Number>
    requires { at ≤ length s.now }
    ensures { result ≡ number_from behind_point at (drop at s.now) }
{
    if words::is_digit(slices::byte_at(s, at, 0)) {
        return in_frac(s, at + 1);
    }
    None
}

fn behind_int(s: &[u8], at: usize) -> Option<Number>
    requires { at ≤ length s.now }
    ensures { result ≡ number_from behind_int at (drop at s.now) }
{
    let x = slices::byte_at(s, at, 0);
    if x == b'.' {
        return behind_point(s, at + 1);
    }
    if is_e(x) {
        return behind_e(s, at + 1);
    }
    finish(s, at, 3)
}

// Behind the whole part, which begins with the digit x.
fn past_int(s: &[u8], at: usize, x: u8) -> usize
    requires { (x ≡ get_or (drop at s.now) 0 0) × (is_digit x ≡ true) }
    ensures { Leads int behind_int s.now at result }
{
    if x == b'0' {
        return at + 1;
    }
    digits(s, at + 1)
}

fn unsigned(s: &[u8], at: usize) -> Option<Number>
    requires { at ≤ length s.now }
    ensures { result ≡ number_from int at (drop at s.now) }
{
    let x = slices::byte_at(s, at, 0);
    if !words::is_digit(x) {
        return None;
    }
    behind_int(s, past_int(s, at, x))
}

// Behind a minus, if one stands here.
fn past_minus(s: &[u8], at: usize) -> usize
    requires { at ≤ length s.now }
    ensures { Leads number_kind int s.now at result }
{
    if slices::byte_at(s, at, 0) == b'-' {
        return at + 1;
    }
    at
}

fn signed(s: &[u8], at: usize) -> Option<Number>
    requires { at ≤ length s.now }
    ensures { result ≡ number_from number_kind at (drop at s.now) }
{
    unsigned(s, past_minus(s, at))
}

// The number token at a place.
pub fn number_at(s: &[u8], from: usize) -> Option<Number>
    requires { from ≤ length s.now }
    ensures { result ≡ number_at (drop from s.now) }
{
    let found = signed(s, from)?;
    Some(Number {
        kind: found.kind,
        len: found.len - from,
    })
}

// The length of a number at a place that is up to seven digits and begins with the digit x; none where another stands.
pub fn short(s: &[u8], from: usize, x: u8) -> Option<usize>
    requires { (from ≤ length s.now) × (x ≡ get_or (drop from s.now) 0 0) × (is_digit x ≡ true) }
    ensures { IfSome result (λ n. (0 < n) × (found 3 n ≡ number_at (drop from s.now))) }
{
    if s.len() - from < 8 {
        return None;
    }
    let k = eights::place(eights::others(eights::eight(s, from)));
    if is_number(slices::byte_at(s, from, k)) {
        return None;
    }
    if x == b'0' {
        if k != 1 {
            return None;
        }
    }
    Some(k)
}

// The kind of the number that a text is, all of it; none where it is none.
pub fn kind_of(s: &[u8]) -> Option<u32>
    ensures { result ≡ kind_told (number_kind s.now) }
{
    let found = number_at(s, 0)?;
    if found.len != s.len() {
        return None;
    }
    Some(found.kind)
}
