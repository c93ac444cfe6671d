// Escapes that denote a single byte and are told by few bytes of the text: where escapes are many, nearly all are such.
ghost use Rattle.std.specs.Prelude.{◌∷◌, ◌<◌, length, drop};
ghost use Rattle.notation.specs.declared.styles.Style.TheVariants.{Bytes};
ghost use Rattle.escapes.specs.Escapes.{four_digits, raw_byte, escape};
ghost use Rattle.units.specs.Units.{Denotes};

use escapes::hex;
use notation::styles::Style;
use prelude::slices;

// An escape of len bytes that denotes one byte.
#[derive(Clone, Copy)]
pub struct Single {
    pub len: usize,
    pub byte: u8,
}

// What follows `\u` in `""`, where its number is below 0x80. The first digits rule out most others.
fn ascii_number(s: &[u8], at: usize) -> Option<Single>
    ensures { Denotes result (four_digits (drop at s.now)) }
{
    if slices::byte_at(s, at, 0) != b'0' {
        return None;
    }
    if slices::byte_at(s, at, 1) != b'0' {
        return None;
    }
    if b'7' < slices::byte_at(s, at, 2) {
        return None;
    }
    let d = hex::digits_at(s, at, 4);
    let n = d.count;
    let v = d.value;
    if n != 4 {
        return None;
    }
    if 0x80 <= v {
        return None;
    }
    Some(Single {
        len: 6,
        byte: v as u8,
    })
}

// What follows `\y` in `b''`.
fn raw(s: &[u8], at: usize) -> Option<Single>
    ensures { Denotes result (raw_byte Bytes (drop at s.now)) }
{
    let d = hex::digits_at(s, at, 2);
    let n = d.count;
    let v = d.value;
    if n != 2 {
        return None;
    }
    Some(Single {
        len: 4,
        byte: v as u8,
    })
}

// What follows a backslash and the byte c, which is no letter that every style has.
fn special(c: u8, s: &[u8], at: usize, style: Style) -> Option<Single>
    ensures { Denotes result (escape style (c ∷ drop at s.now)) }
{
    match style {
        Style::Json => {
            if c == b'u' {
                return ascii_number(s, at);
            }
            None
        }
        Style::Unicode => {
            if c == b'\'' {
                return Some(Single {
                    len: 2,
                    byte: b'\'',
                });
            }
            None
        }
        Style::Bytes => {
            if c == b'y' {
                return raw(s, at);
            }
            if c == b'\'' {
                return Some(Single {
                    len: 2,
                    byte: b'\'',
                });
            }
            None
        }
    }
}

// The escape whose backslash stands before a place.
pub fn single_at(s: &[u8], at: usize, style: Style) -> Option<Single>
    requires { at < length s.now }
    ensures { Denotes result (escape style (drop at s.now)) }
{
    let c = s[at];
    if let Some(byte) = escapes::common(c) {
        return Some(Single { len: 2, byte });
    }
    special(c, s, at + 1, style)
}
