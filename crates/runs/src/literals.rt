// Runs of literal characters, which stand for themselves.
ghost use Rattle.std.specs.Prelude.{true, ◌≡◌, ◌+◌, ◌<◌, ◌≤◌, length, get_or, drop};
ghost use Rattle.utf8.specs.Class.{class_of};
ghost use Rattle.utf8.specs.Utf8.{tail};
ghost use Rattle.notation.specs.declared.styles.Style.{Style};
ghost use Rattle.notation.specs.Styles.{bare_class};
ghost use Rattle.notation.specs.Literals.{literal_len, literal_run};
ghost use Rattle.runs.specs.inner.Blocks.{Running, Ran};

use crate::blocks;
use notation::styles;
use notation::styles::Style;
use prelude::slices;
use utf8::classes::Classes;
use utf8::{chars, classes};

fn bare_class(style: Style) -> u8
    ensures { result ≡ bare_class style }
{
    match style {
        Style::Json => 3,
        Style::Unicode => 2,
        Style::Bytes => 2,
    }
}

// The length of the literal character at a place whose first byte has class k, 0 where none stands.
fn literal_len(s: &[u8], at: usize, k: u8, style: Style) -> usize
    requires { (at < length s.now) × (k ≡ class_of (get_or s.now at 0)) }
    ensures { result ≡ literal_len style (drop at s.now) }
{
    if k == 0 {
        return 1;
    }
    if k < 6 {
        if k == bare_class(style) {
            return 1;
        }
        return 0;
    }
    chars::long_len(s, at, k)
}

// Whether one continuation byte follows.
pub(crate) fn one_follows(s: &[u8], at: usize) -> bool
    requires { at ≤ length s.now }
    ensures { result ≡ true → tail (get_or s.now (at + 1) 0) ≡ true }
{
    if s.len() - at < 2 {
        return false;
    }
    blocks::continues(s[at + 1])
}

// Whether two continuation bytes follow.
fn two_follow(s: &[u8], at: usize) -> bool
    requires { at ≤ length s.now }
    ensures { result ≡ true → (tail (get_or s.now (at + 1) 0) ≡ true) × (tail (get_or s.now (at + 2) 0) ≡ true) }
{
    if s.len() - at < 3 {
        return false;
    }
    blocks::continues(s[at + 1]) & blocks::continues(s[at + 2])
}

// A place behind characters of the common lengths that are literal in every style. A length is added as a number and not as an
// answer, so that the next byte needn't wait for this one's test.
fn common_before(t: &Classes, s: &[u8], from: usize, end: usize) -> usize
    requires { (from ≤ length s.now) × (end ≤ length s.now) }
    ensures { (st : Style) → Running st s.now from result }
{
    let mut at = from;
    // By while: a turn goes on by as much as what stands there takes.
    while at < end {
        let k = t.class(s[at]);
        if k == 0 {
            at += 1;
            continue;
        }
        if k == 6 {
            if one_follows(s, at) {
                at += 2;
                continue;
            }
        }
        if k == 7 {
            if two_follow(s, at) {
                at += 3;
                continue;
            }
        }
        return at;
    }
    at
}

// The place behind the literal characters from a place on, one by one until an end is reached. Plain bytes never call: they are the
// common case.
fn chars_before(t: &Classes, s: &[u8], from: usize, style: Style, end: usize) -> usize
    requires { (from ≤ length s.now) × (end ≤ length s.now) }
    ensures { Ran style s.now from end result }
{
    let mut at = from;
    // By while: a turn goes on by as much as what stands there takes.
    while at < end {
        let k = t.class(s[at]);
        if k == 0 {
            at += 1;
            continue;
        }
        let n = literal_len(s, at, k, style);
        if n == 0 {
            return at;
        }
        at += n;
    }
    at
}

// Several literal characters at a time: by blocks, or by eights where less than a block is left.
fn several(t: &Classes, s: &[u8], from: usize, style: Style) -> usize
    requires { from ≤ length s.now }
    ensures { Running style s.now from result }
{
    if s.len() - from < 33 {
        return classes::plain_eights(t, s, from);
    }
    blocks::strides(s, from, style)
}

// The place behind the literal characters from a place on, in a text most of which is likely to be one run. What ends the blocks is
// passed one by one, 64 bytes of it, and then they are tried again.
pub fn literal_run(t: &Classes, s: &[u8], from: usize, style: Style) -> usize
    requires { from ≤ length s.now }
    ensures { result ≡ from + literal_run style 0 (drop from s.now) }
{
    let mut at = from;
    // By while: a turn goes on by as much as what stands there takes.
    while at < s.len() {
        let mid = several(t, s, at, style);
        let end = slices::soon(s.len(), mid, 64);
        let most = common_before(t, s, mid, end);
        let next = chars_before(t, s, most, style, end);
        if next < end {
            return next;
        }
        at = next;
    }
    at
}

// The same by blocks of 32, which tell where they end.
fn run_on(t: &Classes, s: &[u8], from: usize, style: Style) -> usize
    requires { from ≤ length s.now }
    ensures { result ≡ from + literal_run style 0 (drop from s.now) }
{
    let mut at = from;
    // By while: a turn goes on by as much as what stands there takes.
    while at < s.len() {
        let mid = blocks::thirty_twos(s, at, style);
        if blocks::ends(s, mid, style) {
            return mid;
        }
        let end = slices::soon(s.len(), mid, 16);
        let most = common_before(t, s, mid, end);
        let next = chars_before(t, s, most, style, end);
        if next < end {
            return next;
        }
        at = next;
    }
    at
}

// The same inside a longer text, where a run is likely to end soon. The first block is tried here, so that a run that ends in it needs no
// call.
pub fn inner_run(t: &Classes, s: &[u8], from: usize, style: Style) -> usize
    requires { from ≤ length s.now }
    ensures { result ≡ from + literal_run style 0 (drop from s.now) }
{
    if s.len() - from < 32 {
        return run_on(t, s, from, style);
    }
    let k = blocks::first_odd(styles::quote_of(style), s, from);
    if 32 <= k {
        return run_on(t, s, from + 32, style);
    }
    if blocks::ends(s, from + k, style) {
        return from + k;
    }
    run_on(t, s, from + k, style)
}

// The same where few are likely, as behind an escape: blocks come only behind the first sixteen bytes.
pub fn short_run(t: &Classes, s: &[u8], from: usize, style: Style) -> usize
    requires { from ≤ length s.now }
    ensures { result ≡ from + literal_run style 0 (drop from s.now) }
{
    let end = slices::soon(s.len(), from, 16);
    let at = chars_before(t, s, from, style, end);
    if at < end {
        return at;
    }
    run_on(t, s, at, style)
}

// The same where the run is likely to have ended already.
pub fn run_there(t: &Classes, s: &[u8], from: usize, style: Style) -> usize
    requires { from ≤ length s.now }
    ensures { result ≡ from + literal_run style 0 (drop from s.now) }
{
    if blocks::ends(s, from, style) {
        return from;
    }
    inner_run(t, s, from, style)
}
