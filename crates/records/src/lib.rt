// A line's record, behind those of earlier lines.
#![tactic(auto)]

ghost use Rattle.std.specs.Prelude.{◌≡◌, ◌+◌, ◌-◌, ◌≤◌, ltb, length};
ghost use Rattle.std.proofs.lemmas.List.Edits.{sets};
ghost use Rattle.prelude.specs.Pick.{pick};
ghost use Rattle.records.specs.Records.{head_size, head, append_line, added_as};

use lines::read;
use prelude::refusals::{Refusal, Refused};
use prelude::slices;

// The bytes before a payload.
pub const HEAD: usize = 4;

// Stores a record's head: the payload's length and its kind.
fn put_head(n: usize, kind: u32, o: usize, out: &mut [u8])
    ensures { out.new ≡ sets out.old o (head n kind) }
{
    let bytes = [
        (n % 256) as u8,
        (n / 256 % 256) as u8,
        (kind % 256) as u8,
        (kind / 256 % 256) as u8,
    ];
    slices::copy_run(&bytes, 0, HEAD, o, out);
}

// Where a payload begins behind `used` bytes: behind its head, or at the room's end where there is none for a head.
fn payload_from(used: usize, room: usize) -> usize
    requires { used ≤ room }
    ensures { result ≡ pick (ltb (room - used) head_size) room (used + head_size) }
{
    if room - used < HEAD {
        return room;
    }
    used + HEAD
}

// Reads a line and puts its record behind `used` bytes of the output: how many bytes it added; where it is refused, the output is as it was.
pub fn append_line(l: &[u8], used: usize, out: &mut [u8]) -> Result<usize, Refused>
    requires { (length l.now ≤ 65535) × (used ≤ length out.old) }
    ensures { added_as result out.new ≡ append_line l.now out.old used }
{
    let from = payload_from(used, out.len());
    let line = read::read_line(l, &mut out[from..])?;
    match line {
        Some(payload) => {
            if out.len() - used < HEAD {
                return Err(Refusal::NoRoom.at(0));
            }
            put_head(payload.len, payload.kind, used, out);
            Ok(HEAD + payload.len)
        }
        None => Ok(0),
    }
}
