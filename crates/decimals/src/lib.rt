// Numbers in decimal digits, put at a place as far as room and buffer reach.
#![tactic(auto)]

ghost use Rattle.std.specs.Prelude.{◌++◌, ◌≤◌};
ghost use Rattle.rooms.specs.inner.Puts.{room_max, Put};
ghost use Rattle.decimals.specs.Decimals.{decimal};

use rooms::parts;

pub fn put_decimal(n: usize, room: usize, o: usize, out: &mut [u8]) -> usize
    requires { room ≤ room_max }
    ensures { Put (decimal n) room o result out.old out.new }
{
    let mut digits = [0u8; 20];
    let k = io::decimal(n as u64, &mut digits);
    parts::put_all(&digits[..k], room, o, out)
}

// A number between words.
pub fn put_counted(
    before: &[u8],
    n: usize,
    behind: &[u8],
    room: usize,
    o: usize,
    out: &mut [u8],
) -> usize
    requires { room ≤ room_max }
    ensures { Put (before.now ++ (decimal n ++ behind.now)) room o result out.old out.new }
{
    let p = parts::put_all(before, room, o, out);
    let q = put_decimal(n, room, p, out);
    parts::put_all(behind, room, q, out)
}
