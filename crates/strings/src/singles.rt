// Units that denote a single byte, one by one. Where escapes are many, this costs less than a run and a unit at a time.
ghost use Rattle.std.specs.Prelude.{◌<◌, ◌≤◌, length};
ghost use Rattle.strings.specs.inner.Turns.{Advanced};

use notation::styles::Style;
use prelude::slices;
use units::single_escapes;
use utf8::classes::Classes;

// How many bytes are read one by one before an escape must have come; longer runs are read by blocks.
const STRETCH: usize = 32;

// A place behind units, and the bytes stored so far.
#[derive(Clone, Copy)]
pub(crate) struct Moved {
    pub at: usize,
    pub count: usize,
}

// The units that begin before an end, up to one of another kind. Plain bytes never call: they are the common case.
fn singles_before(
    t: &Classes,
    s: &[u8],
    from: usize,
    end: usize,
    style: Style,
    o: usize,
    out: &mut [u8],
) -> Moved
    requires { (from ≤ length s.now) × (o ≤ from) × (from < end → end < length s.now) }
    ensures { Advanced style s.now from o out.old result.at result.count out.new }
{
    let mut at = from;
    let mut count = o;
    // By while: a turn goes on by as much as what stands there takes.
    while at < end {
        let b = s[at];
        if t.class(b) == 0 {
            slices::put(b, count, out);
            at += 1;
            count += 1;
            continue;
        }
        if b != b'\\' {
            return Moved { at, count };
        }
        match single_escapes::single_at(s, at + 1, style) {
            Some(unit) => {
                slices::put(unit.byte, count, out);
                at += unit.len;
                count += 1;
            }
            None => {
                return Moved { at, count };
            }
        }
    }
    Moved { at, count }
}

// An end for the loop: a stretch on, or the text's last byte, so that a byte follows each one before it.
fn stretch(s: &[u8], at: usize) -> usize
    requires { at ≤ length s.now }
    ensures { at < result → result < length s.now }
{
    let left = s.len() - at;
    if STRETCH < left {
        return at + STRETCH;
    }
    if 0 < left {
        return s.len() - 1;
    }
    at
}

// The units from a place on, up to one of another kind or a stretch without an escape.
fn singles_from(t: &Classes, s: &[u8], from: usize, style: Style, o: usize, out: &mut [u8]) -> Moved
    requires { (from ≤ length s.now) × (o ≤ from) }
    ensures { Advanced style s.now from o out.old result.at result.count out.new }
{
    let mut at = from;
    let mut count = o;
    loop {
        let end = stretch(s, at);
        let next = singles_before(t, s, at, end, style, count, out);
        if next.at < end {
            return next;
        }
        if next.at - at == next.count - count {
            return next;
        }
        at = next.at;
        count = next.count;
    }
}

// The same behind a run of literal characters and a unit: where the run was long, the next one is likely to be long too.
pub(crate) fn singles_behind(
    t: &Classes,
    s: &[u8],
    from: usize,
    style: Style,
    run: usize,
    o: usize,
    out: &mut [u8],
) -> Moved
    requires { (from ≤ length s.now) × (o ≤ from) }
    ensures { Advanced style s.now from o out.old result.at result.count out.new }
{
    if STRETCH <= run {
        return Moved { at: from, count: o };
    }
    singles_from(t, s, from, style, o, out)
}
