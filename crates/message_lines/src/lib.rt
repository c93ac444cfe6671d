// A message as a plain line: its head, and the sentence behind it.
#![tactic(auto)]

ghost use Rattle.std.specs.Prelude.{◌≤◌};
ghost use Rattle.rooms.specs.inner.Puts.{room_max, Put};
ghost use Rattle.messages.specs.declared.Head.TheVariants.{Refused};
ghost use Rattle.messages.specs.Messages.{line_text, spot_text, head_text, message_text};

use messages::{Head, Spot};
use rooms::parts;

fn put_line(line: usize, room: usize, o: usize, out: &mut [u8]) -> usize
    requires { room ≤ room_max }
    ensures { Put (line_text line) room o result out.old out.new }
{
    decimals::put_counted(b"line ", line, b", ", room, o, out)
}

fn put_spot(spot: Spot, room: usize, o: usize, out: &mut [u8]) -> usize
    requires { room ≤ room_max }
    ensures { Put (spot_text spot) room o result out.old out.new }
{
    match spot {
        Spot::Line(line) => put_line(line, room, o, out),
        Spot::Text(line, column) => {
            let p = put_line(line, room, o, out);
            decimals::put_counted(b"column ", column, b", ", room, p, out)
        }
        Spot::Quoted => o,
    }
}

fn put_refusal(number: u32, spot: Spot, place: usize, room: usize, out: &mut [u8]) -> usize
    requires { room ≤ room_max }
    ensures { Put (head_text (Refused number spot place)) room 0 result out.old out.new }
{
    let p = decimals::put_counted(b"refused ", number as usize, b" at ", room, 0, out);
    let q = put_spot(spot, room, p, out);
    decimals::put_counted(b"place ", place, b": ", room, q, out)
}

fn put_head(head: Head, room: usize, out: &mut [u8]) -> usize
    requires { room ≤ room_max }
    ensures { Put (head_text head) room 0 result out.old out.new }
{
    match head {
        Head::Refused(number, spot, place) => put_refusal(number, spot, place, room, out),
        Head::Note => parts::put_all(b"j8: ", room, 0, out),
    }
}

// A plain line.
pub fn put_message(head: Head, sentence: &[u8], room: usize, out: &mut [u8]) -> usize
    requires { room ≤ room_max }
    ensures { Put (message_text head sentence.now) room 0 result out.old out.new }
{
    let p = put_head(head, room, out);
    let q = parts::put_all(sentence, room, p, out);
    parts::put_byte(b'\n', room, q, out)
}
