// Valid data written in `""` where the room is known to suffice: every byte stands for itself or has an escape of its own.
ghost use Rattle.std.specs.Prelude.{false, ◌||◌, ◌∷◌, [], ◌≡◌, ◌+◌, ◌-◌, ◌*◌, ◌≤◌, ◌<◌, eqb, length};
ghost use Rattle.std.proofs.lemmas.List.Edits.{sets};
ghost use Rattle.prelude.specs.Pick.{pick};
ghost use Rattle.bytewise.specs.inner.Bytewise.{byte_text, NoControl, Unmarked, Texted};

use notation::styles::Form;
use units::written;
use utf8::classes::Classes;

// Whether one of eight bytes is a control; without an early end, so that they are compared at once.
fn any_control(s: &[u8], at: usize) -> bool
    requires { at + 8 ≤ length s.now }
    ensures { result ≡ false → NoControl s.now at 8 }
{
    let mut found = false;
    for k in 0..8 {
        found = found | (s[at + k] < 32);
    }
    found
}

// The quote or the backslash.
fn slashed(b: u8) -> bool
    ensures { result ≡ false → 32 ≤ b → byte_text b ≡ b ∷ [] }
{
    (b == b'"') | (b == b'\\')
}

// Whether one of eight bytes is a quote or a backslash. A test of its own, so that the compiler shares no comparison with the controls'.
fn any_slashed(s: &[u8], at: usize) -> bool
    requires { at + 8 ≤ length s.now }
    ensures { result ≡ false → NoControl s.now at 8 → Unmarked s.now at 8 }
{
    let mut found = false;
    for k in 0..8 {
        found = found | slashed(s[at + k]);
    }
    found
}

// How many bytes stand before a byte of a class other than a control's: a backslash before the quote and the backslash, classes 2 and 4. By
// a shift, since comparing costs more.
fn slashes(k: u8) -> usize
    requires { k < 16 }
    ensures { result ≡ pick (eqb k 2 || eqb k 4) 1 0 }
{
    (0x14usize >> (k as usize)) & 1
}

// Stores the text of a byte that is no control; the place behind it. A backslash that isn't wanted is stored over, which is cheaper than
// a branch.
fn put_slashed(t: &Classes, b: u8, o: usize, out: &mut [u8]) -> usize
    requires { (32 ≤ b) × (o + 2 ≤ length out.old) }
    ensures { (result ≡ o + length (byte_text b)) × (out.new ≡ sets out.old o (byte_text b)) }
{
    let e = o + slashes(t.class(b));
    out[o] = b'\\';
    out[e] = b;
    e + 1
}

// The same of a control.
fn put_control(b: u8, o: usize, out: &mut [u8]) -> usize
    requires { (b < 32) × (o + 6 ≤ length out.old) }
    ensures { (result ≡ o + length (byte_text b)) × (out.new ≡ sets out.old o (byte_text b)) }
{
    written::put_escape(Form::AsJson, b, o, out);
    o + written::escape_len(Form::AsJson, b)
}

// The same of any byte.
fn put_text(t: &Classes, b: u8, o: usize, out: &mut [u8]) -> usize
    requires { o + 6 ≤ length out.old }
    ensures { (result ≡ o + length (byte_text b)) × (out.new ≡ sets out.old o (byte_text b)) }
{
    if t.class(b) == 1 {
        return put_control(b, o, out);
    }
    put_slashed(t, b, o, out)
}

// Eight bytes without a control, one by one; the place behind their text.
fn put_eight(t: &Classes, s: &[u8], from: usize, start: usize, out: &mut [u8]) -> usize
    requires { (from + 8 ≤ length s.now) × NoControl s.now from 8 × (start + 48 ≤ length out.old) }
    ensures { Texted s.now from (from + 8) start out.old result out.new }
{
    let mut o = start;
    for k in 0..8 {
        o = put_slashed(t, s[from + k], o, out);
    }
    o
}

// The text of all bytes from a place on, one by one; the place behind it.
fn put_texts(t: &Classes, s: &[u8], from: usize, start: usize, out: &mut [u8]) -> usize
    requires { (from ≤ length s.now) × (start + 6 * (length s.now - from) ≤ length out.old) }
    ensures { Texted s.now from (length s.now) start out.old result out.new }
{
    let mut o = start;
    for at in from..s.len() {
        o = put_text(t, s[at], o, out);
    }
    o
}

// A place in the data, and the place behind the text of what is before it.
#[derive(Clone, Copy)]
struct Reached {
    at: usize,
    o: usize,
}

// The text of the bytes from a place on through the first control.
fn put_past(t: &Classes, s: &[u8], from: usize, start: usize, out: &mut [u8]) -> Reached
    requires { (from < length s.now) × (start + 6 * (length s.now - from) ≤ length out.old) }
    ensures { (from < result.at) × (result.at ≤ length s.now) × Texted s.now from result.at start out.old result.o out.new }
{
    let mut o = start;
    for at in from..s.len() {
        let b = s[at];
        if t.class(b) == 1 {
            let e = put_control(b, o, out);
            return Reached { at: at + 1, o: e };
        }
        o = put_slashed(t, b, o, out);
    }
    Reached { at: s.len(), o }
}

// The same of all bytes, by eights: one that has a control goes byte by byte through it, one that stands as it is is stored at once.
pub fn put_rest(t: &Classes, s: &[u8], from: usize, start: usize, out: &mut [u8]) -> usize
    requires { (from ≤ length s.now) × (start + 6 * (length s.now - from) ≤ length out.old) }
    ensures { Texted s.now from (length s.now) start out.old result out.new }
{
    let mut at = from;
    let mut o = start;
    // By while: a turn takes a whole block, and what is left at last is less than one.
    while 8 <= s.len() - at {
        if any_control(s, at) {
            let p = put_past(t, s, at, o, out);
            at = p.at;
            o = p.o;
            continue;
        }
        if any_slashed(s, at) {
            o = put_eight(t, s, at, o, out);
            at += 8;
            continue;
        }
        eights::copy(s, at, o, out);
        at += 8;
        o += 8;
    }
    put_texts(t, s, at, o, out)
}
