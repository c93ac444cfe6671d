// What the command prints of a backup or log: a string under the number of its line or node, a cell under its row and column, each on a line.
#![tactic(auto)]

ghost use Rattle.std.specs.Prelude.{true, ◌≡◌, ◌+◌, ◌*◌, ◌≤◌, length};
ghost use Rattle.strings_write.specs.Write.{written_in, wrote_into};
ghost use Rattle.rooms.specs.inner.Puts.{room_max, Put};
ghost use Rattle.entries.specs.Entries.{entry_text, value_text, cell_text};

use prelude::refusals::Refusal;
use rooms::parts;
use utf8::classes::Classes;

// An entry, as far as room and buffer reach.
fn put_entry(t: &Classes, n: usize, s: &[u8], room: usize, out: &mut [u8]) -> usize
    requires { room ≤ room_max }
    ensures { Put (entry_text n s.now) room 0 result out.old out.new }
{
    let a = decimals::put_decimal(n, room, 0, out);
    let b = parts::put_byte(b'\t', room, a, out);
    let e = parts::put_string(t, s, room, b, out);
    parts::put_byte(b'\n', room, e, out)
}

// A cell's value, as far as room and buffer reach.
fn put_value(t: &Classes, quoted: bool, s: &[u8], room: usize, o: usize, out: &mut [u8]) -> usize
    requires { room ≤ room_max }
    ensures { Put (value_text quoted s.now) room o result out.old out.new }
{
    if quoted {
        return parts::put_string(t, s, room, o, out);
    }
    parts::put_all(s, room, o, out)
}

// A cell, as far as room and buffer reach.
fn put_cell(
    t: &Classes,
    row: usize,
    name: &[u8],
    quoted: bool,
    value: &[u8],
    room: usize,
    out: &mut [u8],
) -> usize
    requires { room ≤ room_max }
    ensures { Put (cell_text row name.now quoted value.now) room 0 result out.old out.new }
{
    let a = decimals::put_decimal(row, room, 0, out);
    let b = parts::put_byte(b'\t', room, a, out);
    let c = parts::put_string(t, name, room, b, out);
    let d = parts::put_byte(b'\t', room, c, out);
    let e = put_value(t, quoted, value, room, d, out);
    parts::put_byte(b'\n', room, e, out)
}

// Whether a room holds every line with so many bytes in its strings.
fn ample(size: usize, room: usize) -> bool
    ensures { result ≡ true → 6 * size + 27 ≤ room }
{
    if room < 27 {
        return false;
    }
    size <= (room - 27) / 6
}

// Puts the number, a tab, the bytes as a J8 string and LF in front of out, or refuses with 12 and leaves out as it was. It is measured first, unless
// the room is known to suffice.
pub fn write(n: usize, s: &[u8], out: &mut [u8]) -> Result<usize, Refusal>
    ensures answer { result ≡ written_in (length out.old) (entry_text n s.now) }
    ensures stored { out.new ≡ wrote_into (entry_text n s.now) out.old }
{
    let t = Classes::new();
    let room = out.len();
    if ample(s.len(), room) {
        return Ok(put_entry(&t, n, s, room, out));
    }
    let k = put_entry(&t, n, s, room, &mut out[..0]);
    if room < k {
        return Err(Refusal::NoRoom);
    }
    put_entry(&t, n, s, room, out);
    Ok(k)
}

// The same of a cell: its row, a tab, its column's name as a J8 string, a tab, its value, LF.
pub fn write_cell(
    row: usize,
    name: &[u8],
    quoted: bool,
    value: &[u8],
    out: &mut [u8],
) -> Result<usize, Refusal>
    ensures answer { result ≡ written_in (length out.old) (cell_text row name.now quoted value.now) }
    ensures stored { out.new ≡ wrote_into (cell_text row name.now quoted value.now) out.old }
{
    let t = Classes::new();
    let room = out.len();
    if ample(name.len() + value.len(), room) {
        return Ok(put_cell(&t, row, name, quoted, value, room, out));
    }
    let k = put_cell(&t, row, name, quoted, value, room, &mut out[..0]);
    if room < k {
        return Err(Refusal::NoRoom);
    }
    put_cell(&t, row, name, quoted, value, room, out);
    Ok(k)
}
