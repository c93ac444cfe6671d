// Hex digits, of either case.
ghost use Rattle.std.specs.Prelude.{◌≡◌, ◌^◌, ◌<◌, ◌≤◌, drop};
ghost use Rattle.escapes.specs.Hex.{hex_val, IsDigit, hex_run, hex_number};

use prelude::slices;

// How many digits stand somewhere, and their number.
#[derive(Clone, Copy)]
pub struct Digits {
    pub count: usize,
    pub value: u32,
}

// The value of a digit.
fn hex_val(b: u8) -> Option<u8>
    ensures { IsDigit result (hex_val b) }
{
    if b < b'0' {
        return None;
    }
    if b <= b'9' {
        return Some(b - b'0');
    }
    if b < b'A' {
        return None;
    }
    if b <= b'F' {
        return Some(b - b'A' + 10);
    }
    if b < b'a' {
        return None;
    }
    if b <= b'f' {
        return Some(b - b'a' + 10);
    }
    None
}

// The digits from a place on, `most` of them at most; seven fit the number's type.
pub fn digits_at(s: &[u8], at: usize, most: usize) -> Digits
    requires { most ≤ 7 }
    ensures run { result.count ≡ hex_run most (drop at s.now) }
    ensures number { result.value ≡ hex_number most (drop at s.now) }
    ensures below { result.value < 16 ^ most }
{
    let mut value: u32 = 0;
    for count in 0..most {
        match hex_val(slices::byte_at(s, at, count)) {
            Some(d) => {
                value = value * 16 + d as u32;
            }
            None => {
                return Digits { count, value };
            }
        }
    }
    Digits { count: most, value }
}
