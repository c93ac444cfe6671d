// Calls on a text, data or records, and a room: J8 strings and J8 Lines. Each prints number, place and length, and the buffer.
ghost use Rattle.std.specs.Prelude.{◌≡◌, length};

use crate::{fields, show};
use lines::read::Payload;
use prelude::refusals::{Refusal, Refused};
use strings::answers::Token;

// A buffer before a call.
pub fn filled(b: u8) -> [u8; fields::ROOM_MAX]
    ensures { 65536 ≡ length result }
{
    [b; fields::ROOM_MAX]
}

fn print_decoded(answer: Result<usize, Refused>) {
    match answer {
        Ok(n) => show::three(0, 0, n),
        Err(f) => show::three(f.refusal.number() as usize, f.place, 0),
    }
}

// With the place behind the string.
fn print_token(answer: Result<Token, Refused>) {
    match answer {
        Ok(t) => show::four(0, 0, t.len, t.end),
        Err(f) => show::four(f.refusal.number() as usize, f.place, 0, 0),
    }
}

// With the payload's kind.
fn print_line(answer: Result<Option<Payload>, Refused>) {
    match answer {
        Ok(None) => show::four(0, 0, 0, 0),
        Ok(Some(p)) => show::four(0, 0, p.len, p.kind as usize),
        Err(f) => show::four(f.refusal.number() as usize, f.place, 0, 0),
    }
}

pub fn print_written(answer: Result<usize, Refusal>) {
    match answer {
        Ok(n) => show::three(0, 0, n),
        Err(refusal) => show::three(refusal.number() as usize, 0, 0),
    }
}

fn read(text: &[u8], out: &mut [u8]) {
    print_decoded(strings::read::read(text, out));
}

fn read_token(text: &[u8], out: &mut [u8]) {
    print_token(strings::read::read_token(text, out));
}

fn read_line(line: &[u8], out: &mut [u8]) {
    print_line(lines::read::read(line, out));
}

fn write(data: &[u8], out: &mut [u8]) {
    print_written(strings_write::write::write(data, out));
}

fn write_bytes(data: &[u8], out: &mut [u8]) {
    print_written(strings_write::write::write_bytes(data, out));
}

fn write_lines(records: &[u8], out: &mut [u8]) {
    print_written(lines_write::write::write(records, out));
}

fn answer_write(object: u8, data: &[u8], out: &mut [u8]) {
    if object == b'b' {
        return write_bytes(data, out);
    }
    if object == b'l' {
        return write_lines(data, out);
    }
    write(data, out);
}

fn answer(object: u8, verb: u8, text: &[u8], out: &mut [u8]) {
    if verb == b'w' {
        return answer_write(object, text, out);
    }
    if object == b't' {
        return read_token(text, out);
    }
    if object == b'l' {
        return read_line(text, out);
    }
    read(text, out);
}

fn run_in(object: u8, verb: u8, text: &[u8], out: &mut [u8]) {
    answer(object, verb, text, out);
    show::bytes(out);
}

fn run_to(object: u8, verb: u8, text: &[u8], room: usize) {
    let mut out = filled(0xaa);
    let n = fields::within(room, &out);
    run_in(object, verb, text, &mut out[..n]);
}

// A row of the fields text and room.
pub fn run(object: u8, verb: u8, row: &[u8]) {
    let mut text = filled(0);
    let n = fields::bytes(fields::field(row, 1), &mut text);
    let room = fields::last(row, 2);
    if n > fields::ROOM_MAX || room > fields::ROOM_MAX {
        return show::wrong();
    }
    let n = fields::within(n, &text);
    run_to(object, verb, &text[..n], room);
}
