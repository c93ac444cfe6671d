// A text as a terminal is shown it: what would drive the terminal is escaped in the text's strings, so that they read back the same.
#![tactic(auto)]

ghost use Rattle.std.specs.Prelude.{◌≡◌, ◌≤◌, ◌<◌, length, drop};
ghost use Rattle.strings_write.specs.Write.{written_in, wrote_into};
ghost use Rattle.units.specs.Written.{hex_digit};
ghost use Rattle.rooms.specs.inner.Puts.{room_max, Put};
ghost use Rattle.terminals.specs.Terminals.{mode as mode_of, second, direction, isolate, arabic, general, control_of, control_in, outer, inner, plain_after, mode_after, digits, code_text, is_double, escape_text, byte_text, safe_text};

use prelude::refusals::Refusal;
use prelude::slices;
use rooms::parts;

// A character that would drive a terminal: how many bytes stand behind its first, and its code point as two bytes.
#[derive(Clone, Copy)]
pub struct Control {
    pub rest: usize,
    pub high: u8,
    pub low: u8,
}

// Where a byte stands: outside a string or in one with this closing quote; behind a backslash there; among bytes of a character that is escaped
// already.
#[derive(Clone, Copy)]
pub struct Mode {
    pub quote: Option<u8>,
    pub behind: bool,
    pub skip: usize,
}

// The character by the byte behind c2.
fn second_of(y: u8) -> Option<Control>
    ensures { result ≡ second y }
{
    if y < 0x80 {
        return None;
    }
    if y <= 0x9f {
        return Some(Control {
            rest: 1,
            high: 0,
            low: y,
        });
    }
    None
}

// A mark of direction, by the byte behind e2 80.
fn direction_of(z: u8) -> Option<Control>
    ensures { result ≡ direction z }
{
    if z < 0x8e {
        return None;
    }
    if z <= 0x8f {
        return Some(Control {
            rest: 2,
            high: 0x20,
            low: z - 0x80,
        });
    }
    if z < 0xaa {
        return None;
    }
    if z <= 0xae {
        return Some(Control {
            rest: 2,
            high: 0x20,
            low: z - 0x80,
        });
    }
    None
}

// By the byte behind e2 81.
fn isolate_of(z: u8) -> Option<Control>
    ensures { result ≡ isolate z }
{
    if z < 0xa6 {
        return None;
    }
    if z <= 0xa9 {
        return Some(Control {
            rest: 2,
            high: 0x20,
            low: z - 0x40,
        });
    }
    None
}

fn behind_e2(y: u8, z: u8) -> Option<Control>
    ensures { result ≡ general y z }
{
    if y == 0x80 {
        return direction_of(z);
    }
    if y == 0x81 {
        return isolate_of(z);
    }
    None
}

fn behind_d8(y: u8) -> Option<Control>
    ensures { result ≡ arabic y }
{
    if y == 0x9c {
        return Some(Control {
            rest: 1,
            high: 0x06,
            low: 0x1c,
        });
    }
    None
}

fn control_of(x: u8, y: u8, z: u8) -> Option<Control>
    ensures { result ≡ control_of x y z }
{
    if x == 0x7f {
        return Some(Control {
            rest: 0,
            high: 0,
            low: 0x7f,
        });
    }
    if x == 0xc2 {
        return second_of(y);
    }
    if x == 0xd8 {
        return behind_d8(y);
    }
    if x == 0xe2 {
        return behind_e2(y, z);
    }
    None
}

fn control_at(m: Mode, text: &[u8], at: usize) -> Option<Control>
    ensures { result ≡ control_in m (drop at text.now) }
{
    if m.quote.is_none() {
        return None;
    }
    if m.behind {
        return None;
    }
    if m.skip > 0 {
        return None;
    }
    let x = slices::byte_at(text, at, 0);
    let y = slices::byte_at(text, at, 1);
    let z = slices::byte_at(text, at, 2);
    control_of(x, y, z)
}

fn standing(quote: Option<u8>, behind: bool, skip: usize) -> Mode
    ensures { result ≡ mode_of quote behind skip }
{
    Mode {
        quote,
        behind,
        skip,
    }
}

// The mode behind a byte outside a string.
fn outer_after(x: u8) -> Mode
    ensures { result ≡ outer x }
{
    if x == b'"' {
        return standing(Some(x), false, 0);
    }
    if x == b'\'' {
        return standing(Some(x), false, 0);
    }
    standing(None, false, 0)
}

// Behind a byte of a string.
fn inner_after(quote: u8, x: u8) -> Mode
    ensures { result ≡ inner quote x }
{
    if x == quote {
        return standing(None, false, 0);
    }
    if x == b'\\' {
        return standing(Some(quote), true, 0);
    }
    standing(Some(quote), false, 0)
}

// Behind a byte that begins no character to escape.
fn plain_after(m: Mode, x: u8) -> Mode
    ensures { result ≡ plain_after m x }
{
    if m.behind {
        return standing(m.quote, false, 0);
    }
    match m.quote {
        Some(quote) => inner_after(quote, x),
        None => outer_after(x),
    }
}

fn mode_after(m: Mode, c: Option<Control>, x: u8) -> Mode
    ensures { result ≡ mode_after m c x }
{
    if m.skip > 0 {
        return standing(m.quote, false, m.skip - 1);
    }
    match c {
        Some(c) => standing(m.quote, false, c.rest),
        None => plain_after(m, x),
    }
}

fn hex_digit(d: u8) -> u8
    requires { d < 16 }
    ensures { result ≡ hex_digit d }
{
    if d < 10 {
        return b'0' + d;
    }
    b'a' + (d - 10)
}

// The two digits of a byte.
fn put_digits(x: u8, room: usize, o: usize, out: &mut [u8]) -> usize
    requires { room ≤ room_max }
    ensures { Put (digits x) room o result out.old out.new }
{
    let p = parts::put_byte(hex_digit(x / 16), room, o, out);
    parts::put_byte(hex_digit(x % 16), room, p, out)
}

fn put_code(c: Control, room: usize, o: usize, out: &mut [u8]) -> usize
    requires { room ≤ room_max }
    ensures { Put (code_text c) room o result out.old out.new }
{
    let p = put_digits(c.high, room, o, out);
    put_digits(c.low, room, p, out)
}

fn is_double(quote: Option<u8>) -> bool
    ensures { result ≡ is_double quote }
{
    match quote {
        Some(quote) => quote == b'"',
        None => false,
    }
}

fn put_escape(quote: Option<u8>, c: Control, room: usize, o: usize, out: &mut [u8]) -> usize
    requires { room ≤ room_max }
    ensures { Put (escape_text quote c) room o result out.old out.new }
{
    if is_double(quote) {
        let p = parts::put_all(b"\\u", room, o, out);
        return put_code(c, room, p, out);
    }
    let p = parts::put_all(b"\\u{", room, o, out);
    let q = put_code(c, room, p, out);
    parts::put_byte(b'}', room, q, out)
}

fn put_safe_byte(m: Mode, c: Option<Control>, x: u8, room: usize, o: usize, out: &mut [u8]) -> usize
    requires { room ≤ room_max }
    ensures { Put (byte_text m c x) room o result out.old out.new }
{
    match c {
        Some(c) => put_escape(m.quote, c, room, o, out),
        None => {
            if m.skip > 0 {
                return o;
            }
            parts::put_byte(x, room, o, out)
        }
    }
}

// What is shown of a text, as far as room and buffer reach.
fn put_safe(text: &[u8], room: usize, out: &mut [u8]) -> usize
    requires { room ≤ room_max }
    ensures { Put (safe_text text.now) room 0 result out.old out.new }
{
    let mut m = standing(None, false, 0);
    let mut o = 0;
    for at in 0..text.len() {
        let x = text[at];
        let c = control_at(m, text, at);
        o = put_safe_byte(m, c, x, room, o, out);
        m = mode_after(m, c, x);
    }
    o
}

// Puts what is shown of a text in front of out, or refuses with 12 and leaves out as it was: one pass over no buffer measures it, one stores it.
pub fn write(text: &[u8], out: &mut [u8]) -> Result<usize, Refusal>
    ensures answer { result ≡ written_in (length out.old) (safe_text text.now) }
    ensures stored { out.new ≡ wrote_into (safe_text text.now) out.old }
{
    let room = out.len();
    let n = put_safe(text, room, &mut out[..0]);
    if room < n {
        return Err(Refusal::NoRoom);
    }
    put_safe(text, room, out);
    Ok(n)
}
