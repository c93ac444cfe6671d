// A message written as one line, plain or as a JSON object.
#![tactic(auto)]

ghost use Rattle.std.specs.Prelude.{◌≡◌, ◌≤◌, length};
ghost use Rattle.strings_write.specs.Write.{written_in, wrote_into};
ghost use Rattle.rooms.specs.inner.Puts.{room_max, Put};
ghost use Rattle.messages.specs.Messages.{said_text};

use messages::Head;
use prelude::refusals::Refusal;
use utf8::classes::Classes;

// A line, as far as room and buffer reach.
fn put_said(
    t: &Classes,
    head: Head,
    sentence: &[u8],
    json: bool,
    room: usize,
    out: &mut [u8],
) -> usize
    requires { room ≤ room_max }
    ensures { Put (said_text json head sentence.now) room 0 result out.old out.new }
{
    if json {
        return message_objects::put_object(t, head, sentence, room, out);
    }
    message_lines::put_message(head, sentence, room, out)
}

// Puts the line of a head and its sentence in front of out, or refuses with 12 and leaves out as it was: one pass over no buffer measures it, one
// stores it.
pub fn write(head: Head, sentence: &[u8], json: bool, out: &mut [u8]) -> Result<usize, Refusal>
    ensures answer { result ≡ written_in (length out.old) (said_text json head sentence.now) }
    ensures stored { out.new ≡ wrote_into (said_text json head sentence.now) out.old }
{
    let t = Classes::new();
    let room = out.len();
    let n = put_said(&t, head, sentence, json, room, &mut out[..0]);
    if room < n {
        return Err(Refusal::NoRoom);
    }
    put_said(&t, head, sentence, json, room, out);
    Ok(n)
}
