// A message as a JSON object: the fields of its head, null where nothing is known, and its sentence.
#![tactic(auto)]

ghost use Rattle.std.specs.Prelude.{◌≤◌};
ghost use Rattle.rooms.specs.inner.Puts.{room_max, Put};
ghost use Rattle.messages.specs.declared.Head.TheVariants.{Refused};
ghost use Rattle.messages.specs.Messages.{spot_fields, fields_text, object_text};

use messages::{Head, Spot};
use rooms::parts;
use utf8::classes::Classes;

fn put_spot_fields(spot: Spot, room: usize, o: usize, out: &mut [u8]) -> usize
    requires { room ≤ room_max }
    ensures { Put (spot_fields spot) room o result out.old out.new }
{
    match spot {
        Spot::Line(line) => decimals::put_counted(
            b"\"line\":",
            line,
            b",\"column\":null,",
            room,
            o,
            out,
        ),
        Spot::Text(line, column) => {
            let p = decimals::put_counted(b"\"line\":", line, b",", room, o, out);
            decimals::put_counted(b"\"column\":", column, b",", room, p, out)
        }
        Spot::Quoted => parts::put_all(b"\"line\":null,\"column\":null,", room, o, out),
    }
}

fn put_refusal_fields(number: u32, spot: Spot, place: usize, room: usize, out: &mut [u8]) -> usize
    requires { room ≤ room_max }
    ensures { Put (fields_text (Refused number spot place)) room 0 result out.old out.new }
{
    let p = decimals::put_counted(b"{\"number\":", number as usize, b",", room, 0, out);
    let q = put_spot_fields(spot, room, p, out);
    decimals::put_counted(b"\"place\":", place, b",", room, q, out)
}

fn put_fields(head: Head, room: usize, out: &mut [u8]) -> usize
    requires { room ≤ room_max }
    ensures { Put (fields_text head) room 0 result out.old out.new }
{
    match head {
        Head::Refused(number, spot, place) => put_refusal_fields(number, spot, place, room, out),
        Head::Note => parts::put_all(
            b"{\"number\":null,\"line\":null,\"column\":null,\"place\":null,",
            room,
            0,
            out,
        ),
    }
}

// A line that is an object.
pub fn put_object(t: &Classes, head: Head, sentence: &[u8], room: usize, out: &mut [u8]) -> usize
    requires { room ≤ room_max }
    ensures { Put (object_text head sentence.now) room 0 result out.old out.new }
{
    let p = put_fields(head, room, out);
    let q = parts::put_all(b"\"sentence\":", room, p, out);
    let r = parts::put_string(t, sentence, room, q, out);
    parts::put_all(b"}\n", room, r, out)
}
