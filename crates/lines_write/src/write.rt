// The Lines writer.
ghost use Rattle.std.specs.Prelude.{true, ◌≡◌, ◌+◌, ◌*◌, ◌≤◌, length, get_or, drop};
ghost use Rattle.rooms.specs.inner.Puts.{room_max, Put};
ghost use Rattle.lines_write.specs.Write.{right_record, right_records, line_at, lines_from, wrote_lines, lines_into};

use lines::read;
use prelude::refusals::Refusal;
use prelude::slices;
use records::HEAD;
use rooms::parts;
use utf8::classes::Classes;

// The two-byte number k places behind a place; what stands past the end is 0.
fn number_at(s: &[u8], at: usize, k: usize) -> usize
    requires { k ≤ 2 }
    ensures { (result ≡ get_or (drop at s.now) k 0 + 256 * get_or (drop at s.now) (k + 1) 0) × (result ≤ 65535) }
{
    let low = slices::byte_at(s, at, k);
    let high = slices::byte_at(s, at, k + 1);
    low as usize + 256 * (high as usize)
}

// Whether the record at a place is there whole, and of its payload's kind.
fn right_record(t: &Classes, s: &[u8], at: usize) -> bool
    requires { at ≤ length s.now }
    ensures { result ≡ right_record (drop at s.now) }
{
    let n = number_at(s, at, 0);
    if s.len() - at < HEAD + n {
        return false;
    }
    let from = at + HEAD;
    let kind = read::kind_in(t, &s[from..from + n]);
    number_at(s, at, 2) == kind as usize
}

// Whether all records are right.
fn right_records(t: &Classes, s: &[u8]) -> bool
    ensures { result ≡ right_records 0 s.now }
{
    let mut at = 0;
    // By while: a turn goes on by as much as what stands there takes.
    while at < s.len() {
        if !right_record(t, s, at) {
            return false;
        }
        at += HEAD + number_at(s, at, 0);
    }
    true
}

// The line of a right record.
fn put_line(t: &Classes, s: &[u8], at: usize, room: usize, o: usize, out: &mut [u8]) -> usize
    requires { (at ≤ length s.now) × (right_record (drop at s.now) ≡ true) × (room ≤ room_max) }
    ensures { Put (line_at (drop at s.now)) room o result out.old out.new }
{
    let n = number_at(s, at, 0);
    let valid = number_at(s, at, 2) == 1;
    let from = at + HEAD;
    let p = parts::put_part(t, valid, &s[from..from + n], room, o, out);
    parts::put_byte(b'\n', room, p, out)
}

// The lines of right records. The first that passes the room is the last that is put.
fn pass(t: &Classes, s: &[u8], room: usize, out: &mut [u8]) -> usize
    requires { (right_records 0 s.now ≡ true) × (room ≤ room_max) }
    ensures { Put (lines_from 0 s.now) room 0 result out.old out.new }
{
    let mut at = 0;
    let mut o: usize = 0;
    // By while: a turn goes on by as much as what stands there takes.
    while at < s.len() {
        o = put_line(t, s, at, room, o, out);
        if room < o {
            return o;
        }
        at += HEAD + number_at(s, at, 0);
    }
    o
}

// Writes the strings of records, each quoted and with an LF behind it: the text in front of out, or a refusal and out as it was.
// All records are judged first; then one pass over no buffer measures the text, and one stores it.
pub fn write(records: &[u8], out: &mut [u8]) -> Result<usize, Refusal>
    ensures answer { result ≡ wrote_lines (length out.old) records.now }
    ensures stored { out.new ≡ lines_into records.now out.old }
{
    let t = Classes::new();
    if !right_records(&t, records) {
        return Err(Refusal::Unfit);
    }
    let room = out.len();
    let n = pass(&t, records, room, &mut out[..0]);
    if room < n {
        return Err(Refusal::NoRoom);
    }
    pass(&t, records, room, out);
    Ok(n)
}
