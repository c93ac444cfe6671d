// Escapes told by few bytes, and their sizes.
ghost use Rattle.std.specs.Prelude.{◌≡◌, ◌+◌, ◌-◌, ◌<◌, ◌≤◌, length, drop, IfSome};
ghost use Rattle.utf8.specs.Utf8.{encode};
ghost use Rattle.notation.specs.Styles.{took};
ghost use Rattle.escapes.specs.Escapes.{low_half, code_unit};
ghost use Rattle.units.specs.Units.{unit_at};
ghost use Rattle.string_tokens.specs.inner.Quotes.{len_of, Takes};

use escapes::hex;
use notation::styles;
use notation::styles::Style;

// The bytes of a unit, and how many of them denote none.
#[derive(Clone, Copy)]
pub(crate) struct Size {
    pub len: usize,
    pub spare: usize,
}

// The number of the escape of six bytes at a place in double quotes.
fn code_at(s: &[u8], at: usize, style: Style) -> Option<u32>
    requires { at ≤ length s.now }
    ensures { IfSome result (λ v. (v < 0x10000) × (at + 6 ≤ length s.now) × (unit_at style (drop at s.now) ≡ code_unit v (low_half (drop (at + 6) s.now)))) }
{
    if styles::quote_of(style) != b'"' {
        return None;
    }
    if s.len() - at < 6 {
        return None;
    }
    if s[at] != b'\\' {
        return None;
    }
    if s[at + 1] != b'u' {
        return None;
    }
    let d = hex::digits_at(s, at + 2, 4);
    let n = d.count;
    if n != 4 {
        return None;
    }
    Some(d.value)
}

// The code point of an escape with number v, behind which a place stands: two halves are one.
fn joined(s: &[u8], at: usize, v: u32) -> u32
    requires { (v < 0x10000) × (at ≤ length s.now) }
    ensures { (result < 0x110000) × (code_unit v (low_half (drop at s.now)) ≡ took (len_of result) (encode result)) }
{
    if v < 0xd800 {
        return v;
    }
    if 0xdbff < v {
        return v;
    }
    let half = escapes::low_half(s, at);
    match half {
        Some(w) => 0x10000 + (v - 0xd800) * 0x400 + (w - 0xdc00),
        None => v,
    }
}

// The code point that a number in double quotes denotes. LLVM is told to compile it into its callers: called, reading escapes took 2 % more
// instructions.
#[inline(always)]
pub(crate) fn point_at(s: &[u8], at: usize, style: Style) -> Option<u32>
    requires { at ≤ length s.now }
    ensures { IfSome result (λ v. (v < 0x110000) × (unit_at style (drop at s.now) ≡ took (len_of v) (encode v))) }
{
    let v = code_at(s, at, style)?;
    Some(joined(s, at + 6, v))
}

// The bytes of the escape of a code point.
pub(crate) fn len_of(v: u32) -> usize
    ensures { result ≡ len_of v }
{
    if v < 0x10000 { 6 } else { 12 }
}

// How many of them denote none.
fn spare_of(v: u32) -> usize
    ensures { result + length (encode v) ≡ len_of v }
{
    if v < 0x80 {
        return 5;
    }
    if v < 0x800 {
        return 4;
    }
    if v < 0x10000 {
        return 3;
    }
    8
}

// The escape at a place that few bytes tell.
pub(crate) fn size_at(s: &[u8], at: usize, style: Style) -> Option<Size>
    requires { at ≤ length s.now }
    ensures { IfSome result (λ size. (size.spare ≤ size.len) × Takes style (drop at s.now) size.len (size.len - size.spare)) }
{
    if s.len() - at < 2 {
        return None;
    }
    if s[at] != b'\\' {
        return None;
    }
    if let Some(_) = escapes::common(s[at + 1]) {
        return Some(Size { len: 2, spare: 1 });
    }
    let v = point_at(s, at, style)?;
    Some(Size {
        len: len_of(v),
        spare: spare_of(v),
    })
}
