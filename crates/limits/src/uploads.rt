// Uploads: calls on a fresh state, `F` with bytes to feed and `E` to finish, joined by `;`. Each answer is printed, and at the end the state,
// the output and the line buffer.
use crate::{fields, show, texts};
use prelude::slices;
use upload::uploads::{Answer, Fed, Upload};

// No row has more calls.
const CALLS_MAX: usize = 1000;

fn one_if(flag: bool) -> usize {
    if flag { 1 } else { 0 }
}

fn print_state(s: Upload) {
    show::mark(b' ');
    show::four(s.taken, s.lfs, s.held, s.used);
    show::mark(b',');
    show::four(one_if(s.ended), s.refusal as usize, s.line, s.place);
}

fn print_answer(a: Answer, first: bool) {
    if !first {
        show::mark(b';');
    }
    show::three(a.number as usize, a.line, a.place);
}

fn nothing() -> usize {
    show::wrong();
    0
}

// The bytes of a call that feeds; none, and a word on it, if it is wrong.
fn piece_of(call: &[u8], piece: &mut [u8]) -> usize {
    if slices::byte_at(call, 0, 0) != b'F' {
        return nothing();
    }
    let n = fields::bytes(fields::part(call, b'F', 1), piece);
    if n == fields::WRONG {
        return nothing();
    }
    n
}

fn feed_first(n: usize, piece: &[u8], state: Upload, line: &mut [u8], out: &mut [u8]) -> Fed {
    let n = fields::within(n, piece);
    state.feed(&piece[..n], line, out)
}

fn feed(call: &[u8], state: Upload, line: &mut [u8], out: &mut [u8]) -> Fed {
    let mut piece = texts::filled(0);
    let n = piece_of(call, &mut piece);
    feed_first(n, &piece, state, line, out)
}

fn make(call: &[u8], state: Upload, line: &mut [u8], out: &mut [u8]) -> Fed {
    if slices::byte_at(call, 0, 0) == b'E' {
        return state.finish(line, out);
    }
    feed(call, state, line, out)
}

fn calls(list: &[u8], line: &mut [u8], out: &mut [u8]) {
    let mut state = Upload::fresh();
    for k in 0..CALLS_MAX {
        let call = fields::part(list, b';', k);
        if call.len() == 0 {
            return print_state(state);
        }
        let fed = make(call, state, line, out);
        let answer = fed.answer;
        print_answer(answer, k == 0);
        state = fed.state;
    }
    show::wrong();
}

fn run_in(list: &[u8], line: &mut [u8], out: &mut [u8]) {
    calls(list, line, out);
    show::bytes(out);
    show::bytes(line);
}

fn run_line(list: &[u8], held: usize, out: &mut [u8]) {
    let mut line = texts::filled(0xaa);
    let n = fields::within(held, &line);
    run_in(list, &mut line[..n], out);
}

fn run_out(list: &[u8], held: usize, room: usize) {
    let mut out = texts::filled(0xbb);
    let n = fields::within(room, &out);
    run_line(list, held, &mut out[..n]);
}

// A row of the fields room of the line buffer, room of the output, and calls.
pub fn run(row: &[u8]) {
    let held = fields::number(fields::field(row, 1));
    let room = fields::number(fields::field(row, 2));
    if held > fields::ROOM_MAX || room > fields::ROOM_MAX || !fields::is_over(row, 4) {
        return show::wrong();
    }
    run_out(fields::field(row, 3), held, room);
}
