// What each escape of a J8 string denotes, in each style. Each function is one definition of specs/Escapes.antt, at a place of the text.
#![tactic(auto)]

pub mod hex;

ghost use Rattle.std.specs.Prelude.{◌≡◌, [], ◌∷◌, ◌<◌, ◌≤◌, length, drop, Ok};
ghost use Rattle.utf8.specs.Utf8.{encode};
ghost use Rattle.notation.specs.Styles.{took, unit_of, FewOf};
ghost use Rattle.notation.specs.declared.styles.Style.TheVariants.{Unicode, Bytes};
ghost use Rattle.escapes.specs.Escapes.{lookup, letters, letters_of, Tells, half_of, IsHalf, low_half, code_unit, four_digits, scalar, braced, code_point, raw_byte, letter_escape, escape};

use notation::styles::{Style, Unit};
use prelude::refusals::Refusal;
use prelude::slices;
use utf8::encoding;
use utf8::encoding::Few;

// The byte that a letter denotes in every style.
pub fn common(c: u8) -> Option<u8>
    ensures { Tells result (lookup c letters) }
{
    if c == b'"' {
        return Some(b'"');
    }
    if c == b'\\' {
        return Some(b'\\');
    }
    if c == b'/' {
        return Some(b'/');
    }
    if c == b'b' {
        return Some(b'\x08');
    }
    if c == b'f' {
        return Some(b'\x0c');
    }
    if c == b'n' {
        return Some(b'\n');
    }
    if c == b'r' {
        return Some(b'\r');
    }
    if c == b't' {
        return Some(b'\t');
    }
    None
}

// In the single-quoted styles `'` is a letter too.
fn single_quoted(c: u8) -> Option<u8>
    ensures { Tells result (lookup c (letters_of Unicode)) }
{
    if c == b'\'' {
        return Some(b'\'');
    }
    common(c)
}

fn byte_of(c: u8, style: Style) -> Option<u8>
    ensures { Tells result (lookup c (letters_of style)) }
{
    match style {
        Style::Json => common(c),
        Style::Unicode => single_quoted(c),
        Style::Bytes => single_quoted(c),
    }
}

// A unit of n bytes that denotes one byte.
fn byte_unit(n: usize, b: u8) -> Unit
    ensures is { unit_of (Ok result) ≡ took n (b ∷ []) }
    ensures few { FewOf (Ok result) }
{
    Unit::Took(
        n,
        Few {
            count: 1,
            a: b,
            b: 0,
            c: 0,
            d: 0,
        },
    )
}

// A unit of n bytes that denotes a code point.
fn coded(n: usize, v: u32) -> Unit
    requires { v < 0x110000 }
    ensures is { unit_of (Ok result) ≡ took n (encode v) }
    ensures few { FewOf (Ok result) }
{
    Unit::Took(n, encoding::encode(v))
}

// The escaped low half at a place.
pub fn low_half(s: &[u8], at: usize) -> Option<u32>
    requires { at ≤ length s.now }
    ensures is { half_of result ≡ low_half (drop at s.now) }
    ensures half { IsHalf result }
{
    if slices::byte_at(s, at, 0) != b'\\' {
        return None;
    }
    if slices::byte_at(s, at, 1) != b'u' {
        return None;
    }
    let d = hex::digits_at(s, at + 2, 4);
    let n = d.count;
    let v = d.value;
    if n != 4 {
        return None;
    }
    if v < 0xdc00 {
        return None;
    }
    if v <= 0xdfff {
        return Some(v);
    }
    None
}

// A number of four digits, and the low half behind it.
fn code_unit(v: u32, half: Option<u32>) -> Unit
    requires { (v < 0x10000) × IsHalf half }
    ensures is { unit_of (Ok result) ≡ code_unit v (half_of half) }
    ensures few { FewOf (Ok result) }
{
    if v < 0xd800 {
        return coded(6, v);
    }
    if v <= 0xdbff {
        return match half {
            Some(w) => coded(12, 0x10000 + (v - 0xd800) * 0x400 + (w - 0xdc00)),
            None => coded(6, v),
        };
    }
    coded(6, v)
}

// What follows `\u` in `""`.
fn four_digits(s: &[u8], at: usize) -> Result<Unit, Refusal>
    requires { at ≤ length s.now }
    ensures is { unit_of result ≡ four_digits (drop at s.now) }
    ensures few { FewOf result }
{
    let d = hex::digits_at(s, at, 4);
    let n = d.count;
    let v = d.value;
    if n != 4 {
        return Err(Refusal::BadEscape);
    }
    if v < 0xd800 {
        return Ok(coded(6, v));
    }
    Ok(code_unit(v, low_half(s, at + 4)))
}

// The number of a `\u{h}` of n bytes.
fn scalar(n: usize, v: u32) -> Result<Unit, Refusal>
    ensures is { unit_of result ≡ scalar n v }
    ensures few { FewOf result }
{
    if v < 0xd800 {
        return Ok(coded(n, v));
    }
    if v <= 0xdfff {
        return Err(Refusal::Surrogate);
    }
    if 0x10ffff < v {
        return Err(Refusal::TooLarge);
    }
    Ok(coded(n, v))
}

// What follows `\u` in the single-quoted styles. A seventh digit is looked for, so that seven are refused.
fn braced(s: &[u8], at: usize) -> Result<Unit, Refusal>
    requires { at ≤ length s.now }
    ensures is { unit_of result ≡ braced (drop at s.now) }
    ensures few { FewOf result }
{
    if slices::byte_at(s, at, 0) != b'{' {
        return Err(Refusal::BadEscape);
    }
    let d = hex::digits_at(s, at + 1, 7);
    let n = d.count;
    if n < 1 {
        return Err(Refusal::BadEscape);
    }
    if 6 < n {
        return Err(Refusal::BadEscape);
    }
    if slices::byte_at(s, at + 1, n) == b'}' {
        return scalar(4 + n, d.value);
    }
    Err(Refusal::BadEscape)
}

// What follows `\u`.
fn code_point(s: &[u8], at: usize, style: Style) -> Result<Unit, Refusal>
    requires { at ≤ length s.now }
    ensures is { unit_of result ≡ code_point style (drop at s.now) }
    ensures few { FewOf result }
{
    match style {
        Style::Json => four_digits(s, at),
        Style::Unicode => braced(s, at),
        Style::Bytes => braced(s, at),
    }
}

// What follows `\y` in `b''`.
fn two_digits(s: &[u8], at: usize) -> Result<Unit, Refusal>
    ensures is { unit_of result ≡ raw_byte Bytes (drop at s.now) }
    ensures few { FewOf result }
{
    let d = hex::digits_at(s, at, 2);
    let n = d.count;
    let v = d.value;
    if n == 2 {
        return Ok(byte_unit(4, v as u8));
    }
    Err(Refusal::BadEscape)
}

// What follows `\y`.
fn raw_byte(s: &[u8], at: usize, style: Style) -> Result<Unit, Refusal>
    ensures is { unit_of result ≡ raw_byte style (drop at s.now) }
    ensures few { FewOf result }
{
    match style {
        Style::Json => Err(Refusal::BadEscape),
        Style::Unicode => Err(Refusal::ByteEscape),
        Style::Bytes => two_digits(s, at),
    }
}

// A backslash and one letter.
fn letter_escape(c: u8, style: Style) -> Result<Unit, Refusal>
    ensures is { unit_of result ≡ letter_escape (lookup c (letters_of style)) }
    ensures few { FewOf result }
{
    match byte_of(c, style) {
        Some(b) => Ok(byte_unit(2, b)),
        None => Err(Refusal::BadEscape),
    }
}

// The escape whose backslash stands before a place.
pub fn escape_at(s: &[u8], at: usize, style: Style) -> Result<Unit, Refusal>
    requires { at ≤ length s.now }
    ensures is { unit_of result ≡ escape style (drop at s.now) }
    ensures few { FewOf result }
{
    let c = slices::byte_at(s, at, 0);
    if c == b'u' {
        return code_point(s, at + 1, style);
    }
    if c == b'y' {
        return raw_byte(s, at + 1, style);
    }
    letter_escape(c, style)
}
