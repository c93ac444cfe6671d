// The string writer: `""` for valid UTF-8, else `b''`; and the `b''` form by itself.
ghost use Rattle.std.specs.Prelude.{true, List, ◌≡◌, ℕ, ◌+◌, ◌*◌, ◌≤◌, ◌<◌, length, take, drop};
ghost use Rattle.std.specs.Option.{ok_or};
ghost use Rattle.std.proofs.lemmas.List.Edits.{sets};
ghost use Rattle.prelude.specs.Refusals.{no_room};
ghost use Rattle.utf8.specs.Utf8.{valid_utf8};
ghost use Rattle.notation.specs.declared.styles.Style.TheVariants.{Json};
ghost use Rattle.notation.specs.declared.styles.Form.TheVariants.{AsJson};
ghost use Rattle.runs.specs.inner.Blocks.{Running};
ghost use Rattle.notation.specs.Literals.{literal_run};
ghost use Rattle.strings_write.specs.Write.{mark, quoted, write_bytes, write_string, written_in, wrote_into};
ghost use Rattle.strings_write.specs.inner.Passes.{Passed};
ghost use Rattle.bytewise.specs.inner.Bytewise.{Fronted, Onward};

use bytewise::{front, rest};
use notation::styles;
use notation::styles::{Form, Style};
use prelude::refusals::Refusal;
use prelude::{copies, slices};
use runs::{blocks, literals};
use units::written;
use utf8::chars;
use utf8::classes::Classes;

// Stores the opening mark of a form, as far as there is room; its length.
fn put_mark(form: Form, out: &mut [u8]) -> usize
    ensures { (result ≡ length (mark form)) × (out.new ≡ sets out.old 0 (mark form)) }
{
    match form {
        Form::AsJson => {
            slices::put(b'"', 0, out);
            1
        }
        Form::AsBytes => {
            let text = [b'b', b'\''];
            slices::copy_run(&text, 0, 2, 0, out);
            2
        }
    }
}

// Writes the data in a form into a buffer that isn't longer than the room: the text's length, or none as soon as it passes the room. The
// count stops there, so it can't run over. What passes the room is stored as far as the buffer reaches before the count stops.
fn pass(t: &Classes, form: Form, s: &[u8], room: usize, out: &mut [u8]) -> Option<usize>
    requires { length out.old ≤ room }
    ensures { Passed (quoted form s.now) room result out.old out.new }
{
    let style = styles::style_of(form);
    let first = put_mark(form, out);
    if room <= first {
        return None;
    }
    let cap = room - 1;
    let mut o = first;
    let mut at = 0;
    // By while: a turn goes on by as much as what stands there takes.
    while at < s.len() {
        let e = literals::short_run(t, s, at, style);
        if e == at {
            let x = s[at];
            let m = written::escape_len(form, x);
            written::put_escape(form, x, o, out);
            if cap - o < m {
                return None;
            }
            o += m;
            at += 1;
        } else {
            let n = e - at;
            slices::copy_run(s, at, n, o, out);
            if cap - o < n {
                return None;
            }
            o += n;
            at = e;
        }
    }
    slices::put(styles::quote_in(form), o, out);
    Some(o + 1)
}

// The same in any buffer: the part that lies in the room is lent.
fn write_form(t: &Classes, form: Form, s: &[u8], room: usize, out: &mut [u8]) -> Option<usize>
    ensures { Passed (quoted form s.now) room result out.old out.new }
{
    let n = slices::least(room, out.len());
    pass(t, form, s, room, &mut out[..n])
}

// The same in the form that the data takes, by whether it is valid UTF-8.
pub fn write_part(t: &Classes, valid: bool, s: &[u8], room: usize, out: &mut [u8]) -> Option<usize>
    requires { valid ≡ valid_utf8 s.now }
    ensures { Passed (write_string s.now) room result out.old out.new }
{
    if valid {
        return write_form(t, Form::AsJson, s, room, out);
    }
    write_form(t, Form::AsBytes, s, room, out)
}

// The front of the text of data that is one run of literal characters, where the text passes the room.
fn literal_front(s: &[u8], room: usize, out: &mut [u8])
    requires { (literal_run Json 0 s.now ≡ length s.now) × (room < length s.now + 2) }
    ensures { out.new ≡ sets out.old 0 (take room (write_string s.now)) }
{
    if room == 0 {
        return;
    }
    slices::put(b'"', 0, out);
    copies::copy_long(s, 0, room - 1, 1, out);
}

// The text of such data: its length, or none where it passes the room.
fn literal_part(s: &[u8], room: usize, out: &mut [u8]) -> Option<usize>
    requires { literal_run Json 0 s.now ≡ length s.now }
    ensures { Passed (write_string s.now) room result out.old out.new }
{
    let size = s.len();
    if room < size + 2 {
        literal_front(s, room, out);
        return None;
    }
    slices::put(b'"', 0, out);
    copies::copy_long(s, 0, size, 1, out);
    slices::put(b'"', size + 1, out);
    Some(size + 2)
}

// The same for any data: one run to the end needs no other look, and is valid so far where it ends before.
fn write_tight(t: &Classes, s: &[u8], room: usize, out: &mut [u8]) -> Option<usize>
    ensures { Passed (write_string s.now) room result out.old out.new }
{
    let e = literals::inner_run(t, s, 0, Style::Json);
    if e == s.len() {
        return literal_part(s, room, out);
    }
    let valid = chars::valid_in(t, &s[e..]);
    write_part(t, valid, s, room, out)
}

// Whether a room holds every text of n bytes of data, and a buffer the room.
fn ample(n: usize, room: usize, buffer: usize) -> bool
    ensures { result ≡ true → (6 * n + 2 ≤ room) × (room ≤ buffer) }
{
    if buffer < room {
        return false;
    }
    if room < 2 {
        return false;
    }
    n <= (room - 2) / 6
}

// Where the front of the data ends, and whether the rest is valid UTF-8.
#[derive(Clone, Copy)]
struct Judged {
    at: usize,
    valid: bool,
}

// Judges what is behind the front's ASCII. If all of it is ASCII, it has an escape soon and the front ends here; else it goes on.
fn judge(t: &Classes, s: &[u8], at: usize, out: &mut [u8]) -> Judged
    requires { (at ≤ length s.now) × (length s.now + 2 ≤ length out.old) }
    ensures { (result.at ≤ length s.now) × Onward s.now at result.at out.old out.new × (result.valid ≡ valid_utf8 (drop result.at s.now)) }
{
    if chars::ascii_from(s, at) {
        return Judged {
            at: at,
            valid: true,
        };
    }
    let e = front::put_onward(s, at, out);
    if e == s.len() {
        return Judged { at: e, valid: true };
    }
    Judged {
        at: e,
        valid: chars::valid_near(t, &s[e..]),
    }
}

// The same in an ample room, where the front of the data is stored already. The rest is handed on from one place only: from two, the
// compiler copies the slice in a way that waits for its stores.
fn write_behind(t: &Classes, s: &[u8], at: usize, room: usize, out: &mut [u8]) -> Option<usize>
    requires { (at ≤ length s.now) × (6 * length s.now + 2 ≤ room) × (room ≤ length out.old) }
    ensures { (o : List ℕ) → Fronted s.now o at out.old → Passed (write_string s.now) room result o out.new }
{
    let j = judge(t, s, at, out);
    if j.at == s.len() {
        out[j.at + 1] = b'"';
        return Some(j.at + 2);
    }
    if j.valid {
        let o = rest::put_rest(t, s, j.at, j.at + 1, out);
        out[o] = b'"';
        return Some(o + 1);
    }
    write_form(t, Form::AsBytes, s, room, out)
}

// The same for any data. In an ample room what stands as it is is stored as it is tested, and nothing is measured.
pub fn write_run(t: &Classes, s: &[u8], room: usize, out: &mut [u8]) -> Option<usize>
    ensures { Passed (write_string s.now) room result out.old out.new }
{
    if !ample(s.len(), room, out.len()) {
        return write_tight(t, s, room, out);
    }
    let e = front::put_front(s, out);
    if e == s.len() {
        out[e + 1] = b'"';
        return Some(e + 2);
    }
    write_behind(t, s, e, room, out)
}

// Whether every text of n bytes of data in a form fits a room.
fn roomy(form: Form, n: usize, room: usize) -> bool
    ensures { result ≡ true → (s : List ℕ) → length s ≡ n → length (quoted form s) ≤ room }
{
    if room < 3 {
        return false;
    }
    match form {
        Form::AsJson => n <= (room - 2) / 6,
        Form::AsBytes => n <= (room - 3) / 4,
    }
}

// A text's length, or 12 where it passes the room.
fn fitted(n: Option<usize>) -> Result<usize, Refusal>
    ensures { result ≡ ok_or n no_room }
{
    match n {
        Some(n) => Ok(n),
        None => Err(Refusal::NoRoom),
    }
}

// The text of the data in a form, or 12: one pass over no buffer to measure it, one to store it. Where the room is known to suffice,
// nothing is measured.
fn write_quoted(t: &Classes, form: Form, s: &[u8], out: &mut [u8]) -> Result<usize, Refusal>
    ensures answer { result ≡ written_in (length out.old) (quoted form s.now) }
    ensures stored { out.new ≡ wrote_into (quoted form s.now) out.old }
{
    let room = out.len();
    if roomy(form, s.len(), room) {
        return fitted(pass(t, form, s, room, out));
    }
    let n = fitted(pass(t, form, s, room, &mut out[..0]))?;
    let _ = pass(t, form, s, room, out);
    Ok(n)
}

// The text of data that is one run of literal characters: a quote, the data, a quote.
fn write_literal(s: &[u8], out: &mut [u8]) -> Result<usize, Refusal>
    requires { literal_run Json 0 s.now ≡ length s.now }
    ensures answer { result ≡ written_in (length out.old) (quoted AsJson s.now) }
    ensures stored { out.new ≡ wrote_into (quoted AsJson s.now) out.old }
{
    let n = s.len();
    if out.len() < n + 2 {
        return Err(Refusal::NoRoom);
    }
    slices::put(b'"', 0, out);
    copies::copy_long(s, 0, n, 1, out);
    slices::put(b'"', n + 1, out);
    Ok(n + 2)
}

// The same where the bytes before a place are known to be literal characters. What is one run of them is valid UTF-8 so far.
fn write_from(s: &[u8], at: usize, out: &mut [u8]) -> Result<usize, Refusal>
    requires { Running Json s.now 0 at }
    ensures answer { result ≡ written_in (length out.old) (write_string s.now) }
    ensures stored { out.new ≡ wrote_into (write_string s.now) out.old }
{
    let t = Classes::new();
    let e = literals::literal_run(&t, s, at, Style::Json);
    if e == s.len() {
        return write_literal(s, out);
    }
    let room = out.len();
    if ample(s.len(), room, room) {
        return fitted(write_run(&t, s, room, out));
    }
    if chars::valid_in(&t, &s[e..]) {
        return write_quoted(&t, Form::AsJson, s, out);
    }
    write_quoted(&t, Form::AsBytes, s, out)
}

// Writes the data as a J8 string: its text in front of out, or 12 and out as it was. Where blocks reach the end, no table is made. They are
// lent a part that is all of the data: a slice handed on as it came is copied at once, and waits for the caller's stores of it.
pub fn write(s: &[u8], out: &mut [u8]) -> Result<usize, Refusal>
    ensures answer { result ≡ written_in (length out.old) (write_string s.now) }
    ensures stored { out.new ≡ wrote_into (write_string s.now) out.old }
{
    let n = s.len();
    let at = blocks::strides_to_end(&s[..n], 0, Style::Json);
    if at == n {
        return write_literal(s, out);
    }
    write_from(s, at, out)
}

// Writes the data in the `b''` form, also where it is valid UTF-8.
pub fn write_bytes(s: &[u8], out: &mut [u8]) -> Result<usize, Refusal>
    ensures answer { result ≡ written_in (length out.old) (write_bytes s.now) }
    ensures stored { out.new ≡ wrote_into (write_bytes s.now) out.old }
{
    let t = Classes::new();
    write_quoted(&t, Form::AsBytes, s, out)
}
