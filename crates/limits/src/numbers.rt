// A table of numbers, printed, so many a row: `:` or `,` and each number, or `-` for one that is as it was. Numbers that are as far from those of
// the row before as those from their own are only counted.
use crate::show;
use std::num::{wrapping_add_usize, wrapping_sub_u32};

// What stands in a table before.
pub const FILL: u32 = 0xaaaaaaaa;

// Whether a number goes on as those of the two rows before.
fn goes_on(table: &[u32], i: usize, width: usize) -> bool {
    if i < width {
        return false;
    }
    let before = i - width;
    if before < width {
        return false;
    }
    if table.len() <= i {
        return false;
    }
    let a = wrapping_sub_u32(table[i], table[before]);
    let b = wrapping_sub_u32(table[before], table[before - width]);
    a == b
}

// Whether a row begins with a number.
fn is_first(i: usize, width: usize) -> bool {
    if width == 0 {
        return true;
    }
    i % width == 0
}

fn print_mark(i: usize, width: usize) {
    if i == 0 {
        return show::mark(b' ');
    }
    if is_first(i, width) {
        return show::mark(b',');
    }
    show::mark(b':');
}

fn print_number(v: u32) {
    if v == FILL {
        return show::mark(b'-');
    }
    show::number(v as usize);
}

fn print_many(n: usize) {
    if n > 0 {
        show::marked(b'*', n);
    }
}

// Prints a number with the count of those before that were not printed, or counts it. Answers the count.
fn step(table: &[u32], i: usize, width: usize, n: usize) -> usize {
    if goes_on(table, i, width) {
        return wrapping_add_usize(n, 1);
    }
    print_many(n);
    print_mark(i, width);
    if i < table.len() {
        print_number(table[i]);
    }
    0
}

// A blank and a table, whole.
pub fn print(table: &[u32], width: usize) {
    let mut n = 0;
    for i in 0..table.len() {
        n = step(table, i, width, n);
    }
    print_many(n);
}
