// Plain names made a book: each is quoted on a line of its own. The job's upload counts what an upload of the book would take, and keeps what
// that would refuse: a line that is too long, or a byte over the limit.
use crate::uploads::{Job, Listing};
use crate::{ends, uploads};
use prelude::limits::{LINE_MAX, UPLOAD_MAX};
use prelude::refusals::Refusal;
use prelude::slices;
use std::rt::Stdout;
use strings_write::write;

fn refused(l: Listing, refusal: Refusal, place: usize) -> Listing {
    let mut l = l;
    let mut state = l.state;
    state.refusal = refusal.number();
    // Each name has a byte or more of the upload, so nothing wraps.
    state.line = std::num::wrapping_add_usize(state.lfs, 1);
    state.place = place;
    l.state = state;
    l.open = false;
    l
}

// The bytes of a line that the upload still takes.
fn place_over(taken: usize) -> usize {
    UPLOAD_MAX - slices::least(taken, UPLOAD_MAX)
}

// A string and LF, put on the page.
fn put_string(
    output: Stdout,
    l: Listing,
    job: Job,
    string: &[u8],
    page: &mut [u8],
    shown: &mut [u8],
) -> Listing {
    let mut l = l;
    let mut state = l.state;
    let n = string.len();
    if n > LINE_MAX {
        return refused(l, Refusal::TooLong, LINE_MAX);
    }
    if state.taken >= UPLOAD_MAX - n {
        return refused(l, Refusal::OverLimit, place_over(state.taken));
    }
    state.taken = state.taken + n + 1;
    state.lfs = std::num::wrapping_add_usize(state.lfs, 1);
    state.held = 0;
    let line = state.lfs;
    l.state = state;
    uploads::put_on(output, l, job, line, string, page, shown)
}

// The name that is held, quoted.
fn put_name(
    output: Stdout,
    l: Listing,
    job: Job,
    line: &[u8],
    out: &mut [u8],
    page: &mut [u8],
    shown: &mut [u8],
) -> Listing {
    let state = l.state;
    let held = command_texts::within(state.held, line);
    match write::write(&line[..held], out) {
        Ok(n) => {
            let n = command_texts::within(n, out);
            put_string(output, l, job, &out[..n], page, shown)
        }
        Err(_) => refused(l, Refusal::TooLong, LINE_MAX),
    }
}

// The bytes of a name, held behind those before them.
fn hold(l: Listing, part: &[u8], line: &mut [u8]) -> Listing {
    let mut l = l;
    let mut state = l.state;
    let at = state.held;
    let held = command_texts::put(part, at, line);
    if held == at && part.len() > 0 {
        return refused(l, Refusal::TooLong, LINE_MAX);
    }
    state.held = held;
    l.state = state;
    l
}

// A part of the names, with at most one end, its last byte.
pub(crate) fn take(
    output: Stdout,
    l: Listing,
    job: Job,
    end: u8,
    part: &[u8],
    line: &mut [u8],
    out: &mut [u8],
    page: &mut [u8],
    shown: &mut [u8],
) -> Listing {
    let n = command_texts::within(ends::find(part, 0, end), part);
    let l = hold(l, &part[..n], line);
    if n == part.len() {
        return l;
    }
    if !l.open {
        return l;
    }
    put_name(output, l, job, line, out, page, shown)
}

// The last name, which may have no end, unless it is empty.
pub(crate) fn finish(
    output: Stdout,
    l: Listing,
    job: Job,
    line: &[u8],
    out: &mut [u8],
    page: &mut [u8],
    shown: &mut [u8],
) -> Listing {
    let state = l.state;
    if state.refusal != 0 {
        return l;
    }
    if state.held == 0 {
        return l;
    }
    put_name(output, l, job, line, out, page, shown)
}
