// The token reader and the string reader.
ghost use Rattle.std.specs.Prelude.{true, ◌≡◌, ◌+◌, ◌-◌, ◌≤◌, length, drop};
ghost use Rattle.std.proofs.lemmas.List.Edits.{sets};
ghost use Rattle.utf8.specs.Utf8.{few_of};
ghost use Rattle.runs.specs.inner.Blocks.{Running};
ghost use Rattle.notation.specs.Literals.{literal_run};
ghost use Rattle.units.specs.Units.{unit_at};
ghost use Rattle.strings.specs.Read.{read_units, read_token, read_string, read_text, read_text_token, fitted, decoded_of, token_of, read_into};
ghost use Rattle.strings.specs.inner.Turns.{read_behind, unit_turn, unit_bytes, turn_of, turn_bytes, units_bytes, token_bytes, Closed};

use crate::answers::Token;
use crate::singles;
use notation::styles::{Style, Unit};
use notation::{marks, styles};
use prelude::limits::TEXT_MAX;
use prelude::refusals::{Refusal, Refused};
use prelude::{copies, slices};
use runs::{blocks, literals};
use utf8::classes::Classes;
use utf8::encoding::Few;

// Behind a turn: the next place and the bytes stored so far; or the string's end and its length.
#[derive(Clone, Copy)]
enum Turned {
    On(usize, usize),
    Finish(usize, usize),
}

// How many of n bytes find room behind a place.
fn room_for(n: usize, o: usize, length: usize) -> usize
    ensures { (result ≤ n) × (result ≤ length - o) × (n ≤ length - o → result ≡ n) × (length - o ≤ n → result ≡ length - o) }
{
    if o < length {
        return slices::least(n, length - o);
    }
    0
}

// Stores up to four bytes, each if there is room for it. They are stored one by one: a copy would cost a call.
pub fn put_few(few: Few, o: usize, out: &mut [u8])
    requires { few.count ≤ 4 }
    ensures { out.new ≡ sets out.old o (few_of few) }
{
    let m = room_for(few.count, o, out.len());
    if m == 0 {
        return;
    }
    out[o] = few.a;
    if m == 1 {
        return;
    }
    out[o + 1] = few.b;
    if m == 2 {
        return;
    }
    out[o + 2] = few.c;
    if m == 3 {
        return;
    }
    out[o + 3] = few.d;
}

// One unit: its bytes are stored as far as there is room.
fn unit_turn(
    t: &Classes,
    s: &[u8],
    at: usize,
    style: Style,
    o: usize,
    out: &mut [u8],
) -> Result<Turned, Refused>
    requires { (at ≤ length s.now) × (o ≤ at) }
    ensures is { result ≡ unit_turn (unit_at style (drop at s.now)) at o }
    ensures stored { out.new ≡ sets out.old o (unit_bytes (unit_at style (drop at s.now))) }
{
    match units::units::unit_at(t, s, at, style) {
        Ok(Unit::Close) => Ok(Turned::Finish(at + 1, o)),
        Ok(Unit::Took(n, few)) => {
            put_few(few, o, out);
            Ok(Turned::On(at + n, o + few.count))
        }
        Err(refusal) => Err(refusal.at(at)),
    }
}

// A run of literal characters that ends at a place, copied at once, and then one unit.
fn turn(
    t: &Classes,
    s: &[u8],
    at: usize,
    e: usize,
    style: Style,
    o: usize,
    out: &mut [u8],
) -> Result<Turned, Refused>
    requires { (at ≤ length s.now) × (o ≤ at) × (e ≡ at + literal_run style 0 (drop at s.now)) }
    ensures is { result ≡ turn_of style (drop at s.now) at o }
    ensures stored { out.new ≡ sets out.old o (turn_bytes style (drop at s.now)) }
{
    let n = e - at;
    copies::copy_long(s, at, n, o, out);
    unit_turn(t, s, e, style, o + n, out)
}

// The units from a place on, up to the closing quote or the first fault, where it is known that the first run of literal characters ends at
// `first`; their bytes are stored as far as there is room.
fn units_from(
    t: &Classes,
    s: &[u8],
    from: usize,
    first: usize,
    style: Style,
    out: &mut [u8],
) -> Result<Token, Refused>
    requires { (from ≤ length s.now) × (first ≡ from + literal_run style 0 (drop from s.now)) }
    ensures is { result ≡ token_of (read_units style from 0 (drop from s.now)) }
    ensures stored { out.new ≡ sets out.old 0 (units_bytes style 0 (drop from s.now)) }
{
    let mut at = from;
    let mut e = first;
    let mut o: usize = 0;
    loop {
        let step = turn(t, s, at, e, style, o, out)?;
        match step {
            Turned::On(next, count) => {
                let moved = singles::singles_behind(t, s, next, style, e - at, count, out);
                at = moved.at;
                o = moved.count;
                e = literals::run_there(t, s, moved.at, style);
            }
            Turned::Finish(end, len) => {
                return Ok(Token { end, len });
            }
        }
    }
}

// The units from a place on.
fn read_units(
    t: &Classes,
    s: &[u8],
    from: usize,
    style: Style,
    out: &mut [u8],
) -> Result<Token, Refused>
    requires { from ≤ length s.now }
    ensures is { result ≡ token_of (read_units style from 0 (drop from s.now)) }
    ensures stored { out.new ≡ sets out.old 0 (units_bytes style 0 (drop from s.now)) }
{
    let first = literals::short_run(t, s, from, style);
    units_from(t, s, from, first, style, out)
}

// The string that a text begins with, whatever follows its closing quote. It stores as far as there is room, a refused text's bytes before
// the fault too: lend it a part without room until the text is known to be right.
pub(crate) fn token(t: &Classes, s: &[u8], out: &mut [u8]) -> Result<Token, Refused>
    ensures is { result ≡ token_of (read_token s.now) }
    ensures stored { out.new ≡ sets out.old 0 (token_bytes s.now) }
{
    match marks::mark_at(s) {
        Some(mark) => read_units(t, s, mark.len, mark.style, out),
        None => Err(Refusal::NoOpening.at(0)),
    }
}

// The same of a text of any length: its bytes in front of out, or a refusal and out as it was.
fn read_first(s: &[u8], out: &mut [u8]) -> Result<Token, Refused>
    ensures answer { result ≡ token_of (fitted (length out.old) (read_token s.now)) }
    ensures stored { out.new ≡ read_into (fitted (length out.old) (read_token s.now)) out.old }
{
    let t = Classes::new();
    let judged = token(&t, s, &mut out[..0])?;
    if judged.len > out.len() {
        return Err(Refusal::NoRoom.at(0));
    }
    let _ = token(&t, s, out);
    Ok(judged)
}

// Reads the J8 string that a text begins with, whatever follows it.
pub fn read_token(s: &[u8], out: &mut [u8]) -> Result<Token, Refused>
    ensures answer { result ≡ token_of (read_text_token (length out.old) s.now) }
    ensures stored { out.new ≡ read_into (read_text_token (length out.old) s.now) out.old }
{
    if TEXT_MAX < s.len() {
        return Err(Refusal::TooLong.at(0));
    }
    read_first(s, out)
}

// The general case of a whole text: once to judge it, and once more to store its bytes.
pub fn two_passes(
    t: &Classes,
    s: &[u8],
    from: usize,
    style: Style,
    out: &mut [u8],
) -> Result<usize, Refused>
    requires { from ≤ length s.now }
    ensures answer { result ≡ decoded_of (read_behind style from (length out.old) s.now) }
    ensures stored { out.new ≡ read_into (read_behind style from (length out.old) s.now) out.old }
{
    let judged = read_units(t, s, from, style, &mut out[..0])?;
    if judged.end != s.len() {
        return Err(Refusal::Trailing.at(judged.end));
    }
    if out.len() < judged.len {
        return Err(Refusal::NoRoom.at(0));
    }
    let _ = read_units(t, s, from, style, out);
    Ok(judged.len)
}

// Whether the closing quote stands at a place and is the text's last byte.
pub fn closes(s: &[u8], e: usize, style: Style) -> bool
    requires { e ≤ length s.now }
    ensures { (result ≡ true → Closed style s.now e) × (Closed style s.now e → result ≡ true) }
{
    if s.len() - e != 1 {
        return false;
    }
    s[e] == styles::quote_of(style)
}

// A text that is one run of literal characters between its quotes is copied once.
pub fn read_run(
    s: &[u8],
    from: usize,
    e: usize,
    style: Style,
    out: &mut [u8],
) -> Result<usize, Refused>
    requires { (from ≤ length s.now) × Running style s.now from e × Closed style s.now e }
    ensures answer { result ≡ decoded_of (read_behind style from (length out.old) s.now) }
    ensures stored { out.new ≡ read_into (read_behind style from (length out.old) s.now) out.old }
{
    let count = e - from;
    if out.len() < count {
        return Err(Refusal::NoRoom.at(0));
    }
    copies::copy_long(s, from, count, 0, out);
    Ok(count)
}

// The units behind a mark, of which those before a place are known to be literal characters.
fn read_marked(
    t: &Classes,
    s: &[u8],
    from: usize,
    at: usize,
    style: Style,
    out: &mut [u8],
) -> Result<usize, Refused>
    requires { (from ≤ length s.now) × Running style s.now from at }
    ensures answer { result ≡ decoded_of (read_behind style from (length out.old) s.now) }
    ensures stored { out.new ≡ read_into (read_behind style from (length out.old) s.now) out.old }
{
    let e = literals::literal_run(t, s, at, style);
    if closes(s, e, style) {
        return read_run(s, from, e, style, out);
    }
    two_passes(t, s, from, style, out)
}

// The units behind a mark: the table is made only where blocks don't reach the closing quote.
fn read_open(s: &[u8], from: usize, style: Style, out: &mut [u8]) -> Result<usize, Refused>
    requires { from ≤ length s.now }
    ensures answer { result ≡ decoded_of (read_behind style from (length out.old) s.now) }
    ensures stored { out.new ≡ read_into (read_behind style from (length out.old) s.now) out.old }
{
    let at = blocks::strides(s, from, style);
    if closes(s, at, style) {
        return read_run(s, from, at, style, out);
    }
    let t = Classes::new();
    read_marked(&t, s, from, at, style, out)
}

// Reads the J8 string that a text of any length is.
fn read_string(s: &[u8], out: &mut [u8]) -> Result<usize, Refused>
    ensures answer { result ≡ decoded_of (fitted (length out.old) (read_string s.now)) }
    ensures stored { out.new ≡ read_into (fitted (length out.old) (read_string s.now)) out.old }
{
    match marks::mark_at(s) {
        Some(mark) => read_open(s, mark.len, mark.style, out),
        None => Err(Refusal::NoOpening.at(0)),
    }
}

// Reads the J8 string that a text is: its bytes in front of out, or a refusal and out as it was.
pub fn read(text: &[u8], out: &mut [u8]) -> Result<usize, Refused>
    ensures answer { result ≡ decoded_of (read_text (length out.old) text.now) }
    ensures stored { out.new ≡ read_into (read_text (length out.old) text.now) out.old }
{
    if TEXT_MAX < text.len() {
        return Err(Refusal::TooLong.at(0));
    }
    read_string(text, out)
}
