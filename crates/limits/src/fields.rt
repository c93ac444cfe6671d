// The fields of a row and what they hold. A field that is wrong has a size that no buffer has.
ghost use Rattle.io.specs.Counts.{IsPrefixLen};

use prelude::slices;

pub const WRONG: usize = 18446744073709551614;

// The most bytes of a text, data, store or room, and the most numbers of a table.
pub const ROOM_MAX: usize = 65536;

pub const TABLE_MAX: usize = 4112;

// More steps than a field takes that fits its buffer.
const STEPS_MAX: usize = 1000000;

// The value of digits, and the place behind them.
#[derive(Clone, Copy)]
struct Decimal {
    value: usize,
    at: usize,
}

// A number of a buffer's bytes: n, which is never more than it has.
pub fn within(n: usize, buffer: &[u8]) -> usize
    ensures { IsPrefixLen result buffer.now }
{
    slices::least(n, buffer.len())
}

// The same of a table's numbers.
pub fn within_table(n: usize, table: &[u32]) -> usize
    ensures { IsPrefixLen result table.now }
{
    slices::least(n, table.len())
}

fn is_barred(barred: bool, x: u8) -> bool {
    if x == b'|' { !barred } else { barred }
}

// The part of a text before which such a byte stands k times, but for those between bars; empty if there is none.
pub fn part(s: &[u8], by: u8, k: usize) -> &[u8] {
    let mut left = k;
    let mut from = 0;
    let mut barred = false;
    for at in 0..s.len() {
        barred = is_barred(barred, s[at]);
        if s[at] != by {
            continue;
        }
        if barred {
            continue;
        }
        if left == 0 {
            return &s[from..at];
        }
        left -= 1;
        from = at + 1;
    }
    if left > 0 {
        return &s[..0];
    }
    &s[from..]
}

// A field of a row.
pub fn field(row: &[u8], k: usize) -> &[u8] {
    part(row, b' ', k)
}

// The value of a hex digit, else 16.
fn digit(x: u8) -> u8 {
    if x < b'0' {
        return 16;
    }
    if x <= b'9' {
        return x - b'0';
    }
    if x < b'a' {
        return 16;
    }
    if x <= b'f' {
        return x - b'a' + 10;
    }
    16
}

// A number with one more digit.
fn with_digit(n: usize, d: u8) -> usize {
    let d = d as usize;
    if n > (18446744073709551615 - d) / 10 {
        return WRONG;
    }
    10 * n + d
}

fn digits(s: &[u8], from: usize) -> Decimal {
    let mut value = 0;
    let mut at = from;
    // By while: a turn goes on by as much as what stands there takes.
    while at < s.len() {
        let d = digit(s[at]);
        if d > 9 {
            return Decimal { value, at };
        }
        value = with_digit(value, d);
        at += 1;
    }
    Decimal { value, at }
}

pub fn number(s: &[u8]) -> usize {
    let d = digits(s, 0);
    if s.len() == 0 || d.at < s.len() {
        return WRONG;
    }
    d.value
}

// Whether a row has no such field, but for a remark.
pub fn is_over(row: &[u8], k: usize) -> bool {
    let rest = field(row, k);
    rest.len() == 0 || rest[0] == b'#'
}

// The number that is a row's last field.
pub fn last(row: &[u8], k: usize) -> usize {
    if k > 9 {
        return WRONG;
    }
    if is_over(row, k + 1) {
        return number(field(row, k));
    }
    WRONG
}

fn put(b: u8, n: usize, out: &mut [u8]) -> usize {
    if n < out.len() {
        out[n] = b;
        return n + 1;
    }
    WRONG
}

// The byte of two hex digits.
fn put_pair(high: u8, low: u8, n: usize, out: &mut [u8]) -> usize {
    if high > 15 {
        return WRONG;
    }
    if low > 15 {
        return WRONG;
    }
    put(16 * high + low, n, out)
}

// Where reading goes on behind a part that was read so often, and how often it was read then.
#[derive(Clone, Copy)]
struct Turn {
    at: usize,
    times: usize,
}

// A part with a count is read again until it was read so often.
fn again(s: &[u8], at: usize, part: usize, times: usize) -> Turn {
    let d = digits(s, at);
    if d.value <= times {
        return Turn { at: d.at, times };
    }
    if d.value - times == 1 {
        return Turn {
            at: d.at,
            times: times + 1,
        };
    }
    Turn {
        at: part,
        times: times + 1,
    }
}

// Stores the bytes of a field.
pub fn bytes(s: &[u8], out: &mut [u8]) -> usize {
    let mut n = 0;
    let mut at = 0;
    let mut part = 0;
    let mut times = 0;
    let mut barred = s.len() == 0;
    let mut left = STEPS_MAX;
    // By while: a turn goes on by as much as what stands there takes.
    while at < s.len() {
        if left == 0 {
            return WRONG;
        }
        left -= 1;
        let x = s[at];
        at += 1;
        if x == b'|' {
            barred = !barred;
            continue;
        }
        if barred {
            n = put(x, n, out);
            continue;
        }
        if x == b'.' {
            part = at;
            times = 0;
            continue;
        }
        if x == b'*' {
            let next = again(s, at, part, times);
            at = next.at;
            times = next.times;
            continue;
        }
        if x != b'-' {
            n = put_pair(digit(x), digit(slices::byte_at(s, at, 0)), n, out);
            at += 1;
        }
    }
    if barred { WRONG } else { n }
}

fn put_number(v: usize, n: usize, out: &mut [u32]) -> usize {
    if v > 4294967295 {
        return WRONG;
    }
    if n < out.len() {
        out[n] = v as u32;
        return n + 1;
    }
    WRONG
}

// Stores the numbers of a field.
pub fn table(s: &[u8], out: &mut [u32]) -> usize {
    let mut n = 0;
    let mut at = 0;
    let mut part = 0;
    let mut times = 0;
    let mut left = STEPS_MAX;
    // By while: a turn goes on by as much as what stands there takes.
    while at < s.len() {
        if left == 0 {
            return WRONG;
        }
        left -= 1;
        let x = s[at];
        if digit(x) < 10 {
            let d = digits(s, at);
            n = put_number(d.value, n, out);
            at = d.at;
            continue;
        }
        at += 1;
        if x == b'.' {
            part = at;
            times = 0;
            continue;
        }
        if x == b'*' {
            let next = again(s, at, part, times);
            at = next.at;
            times = next.times;
            continue;
        }
        if x != b',' && x != b'-' {
            n = WRONG;
        }
    }
    n
}
