// The sentence of each refusal, for someone who doesn't know the numbers.
#![tactic(auto)]

ghost use Rattle.std.specs.Prelude.{◌≡◌, ◌≤◌, length, drop};
ghost use Rattle.strings_write.specs.Write.{written_in, wrote_into};
ghost use Rattle.rooms.specs.inner.Puts.{room_max, Put};
ghost use Rattle.sentences.specs.Sentences.{sentence};
ghost use Rattle.sentences.specs.inner.Lines.{from_line, line_of};

use prelude::refusals::Refusal;
use rooms::parts;

// The place of line n of a text, from 0, or of its first line where it has no such.
fn line_at(s: &[u8], n: usize) -> usize
    ensures { (result ≤ length s.now) × (drop result s.now ≡ from_line s.now s.now n) }
{
    let mut left = n;
    for i in 0..s.len() {
        if left == 0 {
            return i;
        }
        if s[i] != b'\n' {
            continue;
        }
        left -= 1;
    }
    0
}

// Line n of a text, without its end.
fn put_line(s: &[u8], n: usize, room: usize, o: usize, out: &mut [u8]) -> usize
    requires { room ≤ room_max }
    ensures { Put (line_of s.now n) room o result out.old out.new }
{
    let at = line_at(s, n);
    let end = line_ends::lf_from(s, at);
    parts::put_run(s, at, end - at, room, o, out)
}

// A line for each number, from 0; a number that no refusal has says what the first says, and so does one behind the last.
fn put_sentence(number: u32, room: usize, out: &mut [u8]) -> usize
    requires { room ≤ room_max }
    ensures { Put (sentence number) room 0 result out.old out.new }
{
    put_line(
        b"\
no refusal has this number
what was lent for this is unfit
too long: a line may have 1,024 bytes, a string, JSON8 or TSV8 text 32,768
a J8 string begins with \" or ' or u' or b'
the text ends here, and more is needed: it may be cut off
no refusal has this number
a control byte can't stand here as it is: it has to be escaped
no such escape, or it isn't whole
\\u{d800} to \\u{dfff} are no characters
no character is above \\u{10ffff}
\\y can stand in b'' only
there is more behind the end of the string or value
the result is longer than the room for it
this can't stand here
not a number as JSON has it
more than 32 brackets are open
more than 1,024 values and keys
the backup is longer than 1,048,576 bytes
the upload has ended already
a TSV8 table begins with !tsv8 and 1 to 64 names; !type may follow, with Bool, Int, Float or Str for each
this line can't stand here, or doesn't have one cell for each column
this cell doesn't fit the type of its column
this cell is empty: an empty string is written as \"\"
no UTF-8 character begins with this byte; only b'' can hold it, written as \\yhh
this UTF-8 character isn't whole: it is cut off, or in another encoding; only b'' can hold it, written as \\yhh
overlong: UTF-8 writes this character with fewer bytes; only b'' can hold it, written as \\yhh
this is half of a surrogate pair, which UTF-8 never has; only b'' can hold it, written as \\yhh
this UTF-8 form is of a number above 10ffff, which no character has; only b'' can hold it, written as \\yhh
",
        number as usize,
        room,
        0,
        out,
    )
}

// Puts the sentence of a number in front of out, or answers 12 and leaves out as it was: one pass over no buffer measures it, one stores it.
pub fn write(number: u32, out: &mut [u8]) -> Result<usize, Refusal>
    ensures answer { result ≡ written_in (length out.old) (sentence number) }
    ensures stored { out.new ≡ wrote_into (sentence number) out.old }
{
    let room = out.len();
    let n = put_sentence(number, room, &mut out[..0]);
    if room < n {
        return Err(Refusal::NoRoom);
    }
    put_sentence(number, room, out);
    Ok(n)
}
