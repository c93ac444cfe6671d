// One unit of a J8 string.
ghost use Rattle.std.specs.Prelude.{◌≡◌, ◌≤◌, length, take, drop};
ghost use Rattle.utf8.specs.Utf8.{char_at, few_of};
ghost use Rattle.notation.specs.Styles.{unit_of, FewOf};
ghost use Rattle.units.specs.Units.{literal, unit_at};

use notation::styles;
use notation::styles::{Style, Unit};
use prelude::refusals::Refusal;
use prelude::slices;
use utf8::chars;
use utf8::classes::Classes;
use utf8::encoding::Few;

// The n bytes from a place on.
fn few_at(s: &[u8], at: usize, n: usize) -> Few
    requires { (n ≤ 4) × (n ≤ length (drop at s.now)) }
    ensures is { few_of result ≡ take n (drop at s.now) }
    ensures few { result.count ≤ 4 }
{
    Few {
        count: n,
        a: slices::byte_at(s, at, 0),
        b: slices::byte_at(s, at, 1),
        c: slices::byte_at(s, at, 2),
        d: slices::byte_at(s, at, 3),
    }
}

// The literal character at a place, which stands for itself.
fn literal_at(t: &Classes, s: &[u8], at: usize) -> Result<Unit, Refusal>
    ensures is { unit_of result ≡ literal (char_at (drop at s.now)) (drop at s.now) }
    ensures few { FewOf result }
{
    let n = chars::char_at(t, s, at)?;
    Ok(Unit::Took(n, few_at(s, at, n)))
}

// The unit at a place.
pub fn unit_at(t: &Classes, s: &[u8], at: usize, style: Style) -> Result<Unit, Refusal>
    ensures is { unit_of result ≡ unit_at style (drop at s.now) }
    ensures few { FewOf result }
{
    if s.len() <= at {
        return Err(Refusal::CutOff);
    }
    let b = s[at];
    if b == styles::quote_of(style) {
        return Ok(Unit::Close);
    }
    if b == b'\\' {
        return escapes::escape_at(s, at + 1, style);
    }
    if b < 32 {
        return Err(Refusal::Control);
    }
    literal_at(t, s, at)
}
