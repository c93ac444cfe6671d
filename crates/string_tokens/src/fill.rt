// What a string denotes that was judged before.
ghost use Rattle.std.specs.Prelude.{◌≡◌, ◌+◌, ◌-◌, ◌<◌, ◌≤◌, length, get_or, take, drop};
ghost use Rattle.strings.specs.Read.{read_token};
ghost use Rattle.strings.specs.inner.Turns.{units_bytes};
ghost use Rattle.string_tokens.specs.inner.Quotes.{denoted, Fronted, Filled};

use crate::short_escapes;
use notation::marks;
use notation::styles::{Style, Unit};
use prelude::slices;
use strings::read;
use utf8::classes::Classes;
use utf8::encoding;

// A place behind a unit, and the bytes stored so far.
#[derive(Clone, Copy)]
struct Moved {
    at: usize,
    count: usize,
}

// How many bytes stand before a backslash, of eight or, near the end of out, of one. All eight are stored: what is stored behind the bytes
// told is stored over, as out has just the string's length; and no string has more bytes than its text.
fn front(s: &[u8], at: usize, o: usize, out: &mut [u8]) -> usize
    requires { (at < length s.now) × (o < length out.old) × (length out.old - o ≤ length s.now - at) }
    ensures { Fronted s.now at o out.old result out.new }
{
    if 8 <= out.len() - o {
        eights::copy(s, at, o, out);
        let a = eights::slashes(eights::eight(s, at));
        if a == 0 {
            return 8;
        }
        return eights::place(a);
    }
    // By `byte_at`: a plain read of the first byte would be made before the tests above, and the copy of eight then by four parts.
    let b = slices::byte_at(s, at, 0);
    if b == b'\\' {
        return 0;
    }
    out[o] = b;
    1
}

// One unit that isn't the closing quote or a fault.
fn fill_unit(t: &Classes, s: &[u8], at: usize, style: Style, o: usize, out: &mut [u8]) -> Moved
    requires { (at ≤ length s.now) × (o ≤ length out.old) × (0 < length (units_bytes style 0 (drop at s.now))) }
    ensures { Filled style s.now at o out.old result.at result.count out.new }
{
    let unit = units::units::unit_at(t, s, at, style);
    match unit {
        Ok(Unit::Close) => Moved { at, count: o },
        Ok(Unit::Took(n, few)) => {
            let count = few.count;
            read::put_few(few, o, out);
            Moved {
                at: at + n,
                count: o + count,
            }
        }
        Err(_) => Moved { at, count: o },
    }
}

// The same of an escape by its number, or of any other unit.
fn fill_number(t: &Classes, s: &[u8], at: usize, style: Style, o: usize, out: &mut [u8]) -> Moved
    requires { (at ≤ length s.now) × (o ≤ length out.old) × (0 < length (units_bytes style 0 (drop at s.now))) }
    ensures { Filled style s.now at o out.old result.at result.count out.new }
{
    let Some(v) = short_escapes::point_at(s, at, style) else {
        return fill_unit(t, s, at, style, o, out);
    };
    let few = encoding::encode(v);
    let count = few.count;
    read::put_few(few, o, out);
    Moved {
        at: at + short_escapes::len_of(v),
        count: o + count,
    }
}

// The same of an escape. Letters never call: they are the common case.
fn fill_escape(t: &Classes, s: &[u8], at: usize, style: Style, o: usize, out: &mut [u8]) -> Moved
    requires { (at < length s.now) × (get_or s.now at 0 ≡ 0x5c) × (o ≤ length out.old) × (0 < length (units_bytes style 0 (drop at s.now))) }
    ensures { Filled style s.now at o out.old result.at result.count out.new }
{
    if let Some(b) = escapes::common(slices::byte_at(s, at + 1, 0)) {
        slices::put(b, o, out);
        return Moved {
            at: at + 2,
            count: o + 1,
        };
    }
    fill_number(t, s, at, style, o, out)
}

// The units from a place on, into a part of just their bytes' number or of none.
fn fill_units(t: &Classes, s: &[u8], from: usize, style: Style, out: &mut [u8])
    requires { (from ≤ length s.now) × (0 < length out.old → length out.old ≡ length (units_bytes style 0 (drop from s.now))) }
    ensures { out.new ≡ take (length out.old) (units_bytes style 0 (drop from s.now)) }
{
    let mut at = from;
    let mut o: usize = 0;
    // By while: a turn goes on by as much as what stands there takes.
    while o < out.len() {
        let k = front(s, at, o, out);
        at += k;
        o += k;
        if k == 8 {
            continue;
        }
        if out.len() <= o {
            return;
        }
        if s[at] != b'\\' {
            continue;
        }
        let moved = fill_escape(t, s, at, style, o, out);
        at = moved.at;
        o = moved.count;
    }
}

// Stores what the string denotes that a text begins with; the part lent has just its length.
pub fn fill(t: &Classes, s: &[u8], out: &mut [u8])
    requires { length out.old ≡ length (denoted (read_token s.now)) }
    ensures { out.new ≡ denoted (read_token s.now) }
{
    match marks::mark_at(s) {
        Some(mark) => {
            fill_units(t, s, mark.len, mark.style, out);
        }
        None => {}
    }
}
