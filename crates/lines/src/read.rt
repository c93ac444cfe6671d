// The line reader.
ghost use Rattle.std.specs.Prelude.{◌≡◌, ◌+◌, ◌<◌, length};
ghost use Rattle.runs.specs.inner.Blocks.{Running};
ghost use Rattle.notation.specs.Marks.{opens, opening};
ghost use Rattle.strings.specs.Read.{read_string};
ghost use Rattle.strings.specs.inner.Turns.{Closed};
ghost use Rattle.lines.specs.Line.{bare, kind_of, from_string, from_bare, read_stripped, read_line};
ghost use Rattle.lines.specs.Answers.{fitted_line, read_line_text, line_of, line_into};
ghost use Rattle.lines.specs.inner.Told.{Told};

use crate::{bare, strip};
use notation::styles::Style;
use prelude::copies;
use prelude::limits::LINE_MAX;
use prelude::refusals::{Refusal, Refused};
use runs::{blocks, literals};
use utf8::chars;
use utf8::classes::Classes;

// The string that a line holds: its kind and its length. A line that is ignored holds none.
#[derive(Clone, Copy)]
pub struct Payload {
    pub kind: u32,
    pub len: usize,
}

// The kind of a payload, with the table lent.
pub fn kind_in(t: &Classes, s: &[u8]) -> u32
    ensures { result ≡ kind_of s.now }
{
    if chars::valid_in(t, s) {
        return 1;
    }
    2
}

// A line that is one run of literal characters between its quotes. What is literal in a string is valid, so its kind needs no look.
fn read_literal(
    s: &[u8],
    from: usize,
    e: usize,
    style: Style,
    out: &mut [u8],
) -> Result<Option<Payload>, Refused>
    requires { (opens style from ≡ opening s.now) × Running style s.now from e × Closed style s.now e }
    ensures { Told (from_string (read_string s.now)) result out.old out.new }
{
    let n = strings::read::read_run(s, from, e, style, out)?;
    Ok(Some(Payload { kind: 1, len: n }))
}

// A line that is one string, of which the units before a place are known to be literal characters.
fn read_marked(
    s: &[u8],
    from: usize,
    at: usize,
    style: Style,
    out: &mut [u8],
) -> Result<Option<Payload>, Refused>
    requires { (opens style from ≡ opening s.now) × Running style s.now from at }
    ensures { Told (from_string (read_string s.now)) result out.old out.new }
{
    let t = Classes::new();
    let e = literals::literal_run(&t, s, at, style);
    if strings::read::closes(s, e, style) {
        return read_literal(s, from, e, style, out);
    }
    let n = strings::read::two_passes(&t, s, from, style, out)?;
    Ok(Some(Payload {
        kind: kind_in(&t, &out[..n]),
        len: n,
    }))
}

// A line that is one string: the table is made only where blocks don't reach the closing quote.
fn read_quoted(
    s: &[u8],
    from: usize,
    style: Style,
    out: &mut [u8],
) -> Result<Option<Payload>, Refused>
    requires { opens style from ≡ opening s.now }
    ensures { Told (from_string (read_string s.now)) result out.old out.new }
{
    let at = blocks::strides(s, from, style);
    if strings::read::closes(s, at, style) {
        return read_literal(s, from, at, style, out);
    }
    read_marked(s, from, at, style, out)
}

// A bare line.
fn read_bare(s: &[u8], out: &mut [u8]) -> Result<Option<Payload>, Refused>
    ensures { Told (from_bare s.now (bare s.now)) result out.old out.new }
{
    bare::check_bare(s)?;
    let n = s.len();
    if out.len() < n {
        return Err(Refusal::NoRoom.at(0));
    }
    copies::copy_long(s, 0, n, 0, out);
    Ok(Some(Payload { kind: 1, len: n }))
}

// A line that isn't empty and has no blanks at its ends.
fn read_stripped(s: &[u8], out: &mut [u8]) -> Result<Option<Payload>, Refused>
    requires { 0 < length s.now }
    ensures { Told (read_stripped s.now) result out.old out.new }
{
    match notation::marks::mark_at(s) {
        Some(mark) => read_quoted(s, mark.len, mark.style, out),
        None => read_bare(s, out),
    }
}

// Reads a line of any length, without its LF: the string's bytes in front of out, or out as it was. Places are those of the line as it
// stands.
pub fn read_line(l: &[u8], out: &mut [u8]) -> Result<Option<Payload>, Refused>
    ensures answer { result ≡ line_of (fitted_line (length out.old) (read_line l.now)) }
    ensures stored { out.new ≡ line_into (fitted_line (length out.old) (read_line l.now)) out.old }
{
    let a = strip::lead(l);
    let n = strip::trim(&l[a..]);
    if n == 0 {
        return Ok(None);
    }
    match read_stripped(&l[a..a + n], out) {
        Ok(payload) => Ok(payload),
        Err(refused) => match refused.refusal {
            Refusal::NoRoom => Err(Refusal::NoRoom.at(0)),
            _ => Err(refused.refusal.at(a + refused.place)),
        },
    }
}

// Reads a line, without its LF, of at most 1,024 bytes.
pub fn read(l: &[u8], out: &mut [u8]) -> Result<Option<Payload>, Refused>
    ensures answer { result ≡ line_of (read_line_text (length out.old) l.now) }
    ensures stored { out.new ≡ line_into (read_line_text (length out.old) l.now) out.old }
{
    if LINE_MAX < l.len() {
        return Err(Refusal::TooLong.at(LINE_MAX));
    }
    read_line(l, out)
}
