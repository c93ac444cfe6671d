// J8 Lines, in pieces: a book that is read as an upload, or names that are made one. A part of a piece has at most one end of a line or name,
// so it leaves at most one record or string; the output is handed on and emptied before the next part.
ghost use Rattle.std.specs.Prelude.{◌≡◌, true};
ghost use Rattle.command_books.specs.Runs.{is_of_lines};

use crate::{ends, marks, names};
use command_outputs::outcomes::{Outcome, Run};
use command_outputs::pages::{Form, Page};
use command_outputs::{outputs, pages};
use messages::Spot;
use prelude::limits::UPLOAD_MAX;
use records::HEAD;
use std::io::Read;
use std::rt::Stdout;
use upload::uploads::{Answer, Upload};

// No backup gives more pieces: one byte at least is taken of each, or it is refused.
const PIECES_MAX: usize = UPLOAD_MAX + 1;

// What is done with each line: it is listed, its bytes are given with a byte behind them, or it is a name, ended by a byte, that is quoted.
#[derive(Clone, Copy)]
pub enum Job {
    List,
    Give(u8),
    Quote(u8),
}

// A job under way: its upload and page; the first line that begins with a byte order mark, and the first that can't be given; whether the input
// goes on, and what the system says if it can't be read.
#[derive(Clone, Copy)]
pub struct Listing {
    pub state: Upload,
    pub page: Page,
    pub mark: Option<usize>,
    pub mixed: Option<usize>,
    pub open: bool,
    pub failure: Option<i32>,
}

fn fresh(terminal: bool) -> Listing {
    Listing {
        state: Upload::fresh(),
        page: pages::fresh(terminal),
        mark: None,
        mixed: None,
        open: true,
        failure: None,
    }
}

// Whether a terminal is shown J8 text: bytes that are given go to it as they are.
fn is_shown(job: Job, terminal: bool) -> bool {
    match job {
        Job::Give(_) => false,
        _ => terminal,
    }
}

fn form_of(job: Job) -> Form {
    match job {
        Job::List => Form::Entry,
        Job::Give(end) => Form::Raw(end),
        Job::Quote(_) => Form::Raw(b'\n'),
    }
}

// Whether a payload can be given with such an end behind it.
fn is_mixed(job: Job, payload: &[u8]) -> bool {
    match job {
        Job::Give(end) => ends::find(payload, 0, end) < payload.len(),
        _ => false,
    }
}

// A text put on the page under its line.
pub(crate) fn put_on(
    output: Stdout,
    l: Listing,
    job: Job,
    n: usize,
    s: &[u8],
    page: &mut [u8],
    shown: &mut [u8],
) -> Listing {
    let mut l = l;
    if is_mixed(job, s) {
        l.mixed = Some(n);
        l.open = false;
        return l;
    }
    let p = l.page;
    let p = pages::add(output, p, form_of(job), n, s, page, shown);
    l.open = l.open && p.failure.is_none();
    l.page = p;
    l
}

// The record that a call left in the output, if any, put on the page.
fn hand_on(
    output: Stdout,
    l: Listing,
    job: Job,
    n: usize,
    line: &[u8],
    out: &[u8],
    page: &mut [u8],
    shown: &mut [u8],
) -> Listing {
    let mut l = l;
    let mut state = l.state;
    let used = state.used;
    if used < HEAD {
        return l;
    }
    if out.len() < used {
        return l;
    }
    state.used = 0;
    l.state = state;
    if l.mark.is_none() {
        l.mark = marks::line_of(line, n);
    }
    put_on(output, l, job, n, &out[HEAD..used], page, shown)
}

// A part of a book, with at most one LF, its last byte.
fn feed_part(
    output: Stdout,
    l: Listing,
    job: Job,
    part: &[u8],
    line: &mut [u8],
    out: &mut [u8],
    page: &mut [u8],
    shown: &mut [u8],
) -> Listing {
    let mut l = l;
    let before = l.state;
    let fed = before.feed(part, line, out);
    let state = fed.state;
    l.open = l.open && state.refusal == 0;
    let n = state.lfs;
    l.state = state;
    hand_on(output, l, job, n, line, out, page, shown)
}

fn take_part(
    output: Stdout,
    l: Listing,
    job: Job,
    part: &[u8],
    line: &mut [u8],
    out: &mut [u8],
    page: &mut [u8],
    shown: &mut [u8],
) -> Listing {
    match job {
        Job::Quote(end) => names::take(output, l, job, end, part, line, out, page, shown),
        _ => feed_part(output, l, job, part, line, out, page, shown),
    }
}

// The byte that ends a line or name.
fn end_of(job: Job) -> u8 {
    match job {
        Job::Quote(end) => end,
        _ => b'\n',
    }
}

fn take_piece(
    output: Stdout,
    l: Listing,
    job: Job,
    piece: &[u8],
    line: &mut [u8],
    out: &mut [u8],
    page: &mut [u8],
    shown: &mut [u8],
) -> Listing {
    let mut l = l;
    let end = end_of(job);
    let mut from = 0;
    // By while: a turn goes on by as much as what stands there takes.
    while from < piece.len() {
        if !l.open {
            return l;
        }
        let to = ends::behind_next(piece, from, end);
        l = take_part(output, l, job, &piece[from..to], line, out, page, shown);
        from = to;
    }
    l
}

fn unread(l: Listing, error: i32) -> Listing {
    let mut l = l;
    l.open = false;
    l.failure = Some(error);
    l
}

// One read of at most so many bytes: how many there were, or what the system says.
fn read_some<R: Read>(input: &mut R, size: usize, buf: &mut [u8]) -> Result<usize, i32> {
    let n = command_texts::within(size, buf);
    input.read(&mut buf[..n]).map_err(outputs::number_of)
}

// Reads a piece of at most so many bytes, and takes it.
fn read_piece<R: Read>(
    input: &mut R,
    output: Stdout,
    size: usize,
    l: Listing,
    job: Job,
    piece: &mut [u8],
    line: &mut [u8],
    out: &mut [u8],
    page: &mut [u8],
    shown: &mut [u8],
) -> Listing {
    match read_some(input, size, piece) {
        Ok(got) => {
            let n = command_texts::within(got, piece);
            if n == 0 {
                let mut l = l;
                l.open = false;
                return l;
            }
            take_piece(output, l, job, &piece[..n], line, out, page, shown)
        }
        Err(error) => unread(l, error),
    }
}

// All pieces up to the input's end or what stops the job.
fn take_all<R: Read>(
    input: &mut R,
    output: Stdout,
    size: usize,
    l: Listing,
    job: Job,
    piece: &mut [u8],
    line: &mut [u8],
    out: &mut [u8],
    page: &mut [u8],
    shown: &mut [u8],
) -> Listing {
    let mut l = l;
    for _ in 0..PIECES_MAX {
        if !l.open {
            return l;
        }
        l = read_piece(input, output, size, l, job, piece, line, out, page, shown);
    }
    l
}

// The end of a book, whose last line may have no LF; the state then keeps every answer.
fn finish_book(
    output: Stdout,
    l: Listing,
    job: Job,
    line: &[u8],
    out: &mut [u8],
    page: &mut [u8],
    shown: &mut [u8],
) -> Listing {
    let mut l = l;
    let before = l.state;
    let fed = before.finish(line, out);
    let answer = fed.answer;
    let mut state = fed.state;
    state.refusal = answer.number;
    state.line = answer.line;
    state.place = answer.place;
    // No more than 1,048,576 LFs are counted, so nothing wraps.
    let n = std::num::wrapping_add_usize(state.lfs, 1);
    l.state = state;
    hand_on(output, l, job, n, line, out, page, shown)
}

// Whether something else than the input's end or a refusal stopped the job.
fn is_cut(l: Listing) -> bool {
    let p = l.page;
    l.failure.is_some() || l.mixed.is_some() || p.failure.is_some()
}

// The end of the input, unless something else stopped the job.
fn finish(
    output: Stdout,
    l: Listing,
    job: Job,
    line: &mut [u8],
    out: &mut [u8],
    page: &mut [u8],
    shown: &mut [u8],
) -> Listing {
    if is_cut(l) {
        return l;
    }
    match job {
        Job::Quote(_) => names::finish(output, l, job, line, out, page, shown),
        _ => finish_book(output, l, job, line, out, page, shown),
    }
}

fn outcome_of(l: Listing) -> Outcome
    ensures { is_of_lines result ≡ true }
{
    if let Some(error) = l.failure {
        return Outcome::Unread(error);
    }
    let p = l.page;
    if let Some(error) = p.failure {
        return Outcome::Unwritten(error);
    }
    if let Some(line) = l.mixed {
        return Outcome::Mixed(line);
    }
    let state = l.state;
    if state.refusal != 0 {
        return Outcome::Refused(state.refusal, Spot::Line(state.line), state.place);
    }
    Outcome::Done
}

// The first line that begins with a mark: one that was put on the page, or the one that is refused.
fn mark_of(l: Listing, line: &[u8]) -> Option<usize> {
    let state = l.state;
    if l.mark.is_some() || state.refusal == 0 {
        return l.mark;
    }
    let held = command_texts::within(state.held, line);
    marks::line_of(&line[..held], state.line)
}

fn run_of(l: Listing, line: &[u8]) -> Run
    ensures { (is_of_lines result.outcome ≡ true) × (result.size ≡ 0) }
{
    let state = l.state;
    Run {
        outcome: outcome_of(l),
        size: 0,
        mark: mark_of(l, line),
        empty: state.taken == 0 && state.refusal == 0 && l.failure.is_none(),
    }
}

// Prints what is left on the page.
fn flushed(output: Stdout, l: Listing, page: &[u8], shown: &mut [u8]) -> Listing {
    let mut l = l;
    let p = l.page;
    l.page = pages::flush(output, p, page, shown);
    l
}

fn close(
    output: Stdout,
    l: Listing,
    job: Job,
    line: &mut [u8],
    out: &mut [u8],
    page: &mut [u8],
    shown: &mut [u8],
) -> Run
    ensures { (is_of_lines result.outcome ≡ true) × (result.size ≡ 0) }
{
    let l = finish(output, l, job, line, out, page, shown);
    let l = flushed(output, l, page, shown);
    run_of(l, line)
}

// Does the job, on pieces of at most so many bytes.
pub fn run<R: Read>(
    input: &mut R,
    output: Stdout,
    size: usize,
    terminal: bool,
    job: Job,
    piece: &mut [u8],
    line: &mut [u8],
    out: &mut [u8],
    page: &mut [u8],
    shown: &mut [u8],
) -> Run
    ensures { (is_of_lines result.outcome ≡ true) × (result.size ≡ 0) }
{
    let l = fresh(is_shown(job, terminal));
    let l = take_all(input, output, size, l, job, piece, line, out, page, shown);
    close(output, l, job, line, out, page, shown)
}
