// The edges that documents 01 and 02 want run in a program: each row of standard input is a call with its fields, and is printed with what the
// call answers. What the program writes is held to the file `stdout`, which the reference makes.
#![tactic(auto)]

mod fields;
mod numbers;
mod sheets;
mod show;
mod tables;
mod texts;
mod uploads;

use prelude::slices;

// The descriptor of standard input.
const STDIN: i32 = 0;

// No input has more bytes.
const BYTES_MAX: usize = 16777216;

// Reads a byte, 0 at the input's end.
fn read_byte() -> u8 {
    let mut one = [0u8; 1];
    io::read_full(STDIN, &mut one);
    one[0]
}

fn run_table(verb: u8, row: &[u8]) {
    if verb == b'r' {
        return tables::read(row);
    }
    tables::run(verb == b'w', row);
}

// Runs a call and prints what it answers. A few letters tell the calls apart: the reference stops at a name that is none.
fn run(row: &[u8]) {
    let object = slices::byte_at(row, 0, 0);
    let verb = slices::byte_at(fields::part(row, b'_', 1), 0, 0);
    if object == b'j' {
        return run_table(verb, row);
    }
    if object == b'u' {
        return uploads::run(row);
    }
    if slices::byte_at(row, 1, 0) == b's' {
        return sheets::read(row);
    }
    texts::run(object, verb, row);
}

// A heading is printed as it stands.
fn print_row(row: &[u8]) {
    show::print(row);
    if slices::byte_at(row, 0, 0) != b'#' {
        show::mark(b':');
        show::mark(b' ');
        run(row);
    }
    show::mark(b'\n');
}

// Takes the next byte of the input behind a row's first n, or prints the row. Answers how many bytes the row has then; at the input's end
// as many as the line has.
fn take(n: usize, line: &mut [u8]) -> usize {
    let b = read_byte();
    if b == 0 {
        return line.len();
    }
    if b != b'\n' {
        slices::put(b, n, line);
        return std::num::wrapping_add_usize(n, 1);
    }
    let n = fields::within(n, line);
    print_row(&line[..n]);
    0
}

fn print_rows(line: &mut [u8]) {
    let mut n = 0;
    let mut left = BYTES_MAX;
    while left > 0 && n < line.len() {
        n = take(n, line);
        left -= 1;
    }
}

fn main() {
    let mut line = io::large_buffer();
    print_rows(&mut line);
}
