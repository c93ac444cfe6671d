// What is printed: numbers joined by commas, and buffers in the notation of the rows.
use prelude::slices;

// The descriptor of standard output.
const STDOUT: i32 = 1;

pub fn print(s: &[u8]) {
    io::write_all(STDOUT, s);
}

pub fn mark(b: u8) {
    let one = [b];
    print(&one);
}

// What stands behind a row that can't be run.
pub fn wrong() {
    print(b"wrong row");
}

pub fn number(n: usize) {
    io::print_decimal(STDOUT, n as u64);
}

pub fn marked(b: u8, n: usize) {
    mark(b);
    number(n);
}

pub fn three(a: usize, b: usize, c: usize) {
    number(a);
    marked(b',', b);
    marked(b',', c);
}

pub fn four(a: usize, b: usize, c: usize, d: usize) {
    three(a, b, c);
    marked(b',', d);
}

pub fn five(a: usize, b: usize, c: usize, d: usize, e: usize) {
    four(a, b, c, d);
    marked(b',', e);
}

// A byte, and how often it stands there in a row.
fn print_run(b: u8, n: usize) {
    io::print_hex(STDOUT, b as u64, 2);
    if n > 1 {
        marked(b'*', n);
    }
}

// Prints the run that begins at a place if it ends before another. Answers where the run under way begins.
fn step(s: &[u8], from: usize, end: usize) -> usize {
    let b = slices::byte_at(s, from, 0);
    if slices::byte_at(s, end, 0) == b && end < s.len() {
        return from;
    }
    if from > 0 {
        mark(b'.');
    }
    if from < end {
        print_run(b, end - from);
    }
    end
}

fn print_runs(s: &[u8]) {
    let mut from = 0;
    let mut at = 0;
    // By while: a turn goes on by as much as what stands there takes.
    while at < s.len() {
        at += 1;
        from = step(s, from, at);
    }
}

// A blank and a buffer, whole.
pub fn bytes(s: &[u8]) {
    mark(b' ');
    if s.len() == 0 {
        return mark(b'-');
    }
    print_runs(s);
}
