// Literal characters of short texts, without the class table. Blocks may overlap, and leave out the last byte, which may be the closing
// quote. Eight and sixteen bytes are compared at once only where the quote is a constant, so these blocks are for `""` alone.
ghost use Rattle.std.specs.Prelude.{true, ◌≡◌, ◌+◌, ◌<◌, ◌≤◌, length};
ghost use Rattle.notation.specs.declared.styles.Style.TheVariants.{Json};
ghost use Rattle.runs.specs.inner.Blocks.{Running};

use crate::{blocks, literals};
use notation::styles;
use notation::styles::Style;

// The first byte of a character of two.
fn leads(b: u8) -> bool
    ensures { result ≡ true → (0xc2 ≤ b) × (b < 0xe0) }
{
    (0xc2 <= b) & (b < 0xe0)
}

// ASCII and characters of two bytes one by one.
pub(crate) fn one_by_one(s: &[u8], from: usize, style: Style) -> usize
    requires { from ≤ length s.now }
    ensures { Running style s.now from result }
{
    let q = styles::quote_of(style);
    let mut at = from;
    // By while: a turn goes on by as much as what stands there takes.
    while at < s.len() {
        let b = s[at];
        if blocks::odd(q, b) {
            if !leads(b) {
                return at;
            }
            if !literals::one_follows(s, at) {
                return at;
            }
            at += 2;
        } else {
            at += 1;
        }
    }
    at
}

// Two blocks of eight with characters of two bytes.
fn two_paired_eights(s: &[u8], from: usize) -> usize
    requires { (from + 8 < length s.now) × (length s.now ≤ from + 17) }
    ensures { Running Json s.now from result }
{
    let last = s.len() - 1;
    if blocks::continues(s[from]) {
        return from;
    }
    if blocks::any_odd_pair(b'"', s, from, 8) | blocks::any_odd_pair(b'"', s, last - 8, 8) {
        return from;
    }
    blocks::behind(s, last)
}

// Two blocks of eight; ASCII is cheapest, so it comes first.
fn two_eights(s: &[u8], from: usize) -> usize
    requires { (from + 8 < length s.now) × (length s.now ≤ from + 17) }
    ensures { Running Json s.now from result }
{
    let last = s.len() - 1;
    if blocks::any_odd(b'"', s, from, 8) | blocks::any_odd(b'"', s, last - 8, 8) {
        return two_paired_eights(s, from);
    }
    last
}

// The same by two blocks of sixteen.
fn two_paired_sixteens(s: &[u8], from: usize) -> usize
    requires { (from + 16 < length s.now) × (length s.now ≤ from + 33) }
    ensures { Running Json s.now from result }
{
    let last = s.len() - 1;
    if blocks::continues(s[from]) {
        return from;
    }
    if blocks::any_odd_pair(b'"', s, from, 16) | blocks::any_odd_pair(b'"', s, last - 16, 16) {
        return from;
    }
    blocks::behind(s, last)
}

fn two_sixteens(s: &[u8], from: usize) -> usize
    requires { (from + 16 < length s.now) × (length s.now ≤ from + 33) }
    ensures { Running Json s.now from result }
{
    let last = s.len() - 1;
    if blocks::any_odd(b'"', s, from, 16) | blocks::any_odd(b'"', s, last - 16, 16) {
        return two_paired_sixteens(s, from);
    }
    last
}

// What is left of a short text in `""`.
fn json(s: &[u8], from: usize) -> usize
    requires { (from ≤ length s.now) × (length s.now ≤ from + 33) }
    ensures { Running Json s.now from result }
{
    let n = s.len() - from;
    if n < 9 {
        return one_by_one(s, from, Style::Json);
    }
    if n < 18 {
        return two_eights(s, from);
    }
    two_sixteens(s, from)
}

// A place behind literal characters only, where up to 33 bytes are left.
pub(crate) fn short(s: &[u8], from: usize, style: Style) -> usize
    requires { (from ≤ length s.now) × (length s.now ≤ from + 33) }
    ensures { Running style s.now from result }
{
    match style {
        Style::Json => json(s, from),
        Style::Unicode => one_by_one(s, from, style),
        Style::Bytes => one_by_one(s, from, style),
    }
}
