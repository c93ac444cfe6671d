// Readers of what stands between tokens, and of numbers and words.
ghost use Rattle.std.specs.Prelude.{◌≡◌, List, ℕ, ◌+◌, ◌≤◌, ◌<◌, length, get_or, drop};
ghost use Rattle.prelude.specs.Limits.{text_max, node_max};
ghost use Rattle.tokens.specs.inner.Parts.{name_kind};
ghost use Rattle.json8.specs.Nodes.{seq, limited};
ghost use Rattle.json8.specs.Leaves.{spaces, colon, plain, word, number};
ghost use Rattle.json8_leaves.specs.inner.Told.{Place, Told, Stepped, absent};

use crate::nodes;
use crate::nodes::{Noted, Step};
use prelude::limits::NODE_MAX;
use prelude::refusals::{Refusal, Refused};
use prelude::slices;
use tokens::{blanks, numbers, words};
use utf8::classes::Classes;

// Whitespace and comments.
fn blank(t: &Classes, text: &[u8], at: usize) -> Result<Step, Refused>
    requires { (at ≤ length text.now) × (length text.now ≤ text_max) }
    ensures { Stepped text.now (spaces at 0 0 (drop at text.now)) at result }
{
    match blanks::skip(t, text, at) {
        Ok(n) => Ok(Step {
            at: at + n,
            byte: slices::byte_at(text, at + n, 0),
        }),
        Err(f) => Err(f.refusal.at(at + f.place)),
    }
}

// Whitespace and comments before a colon, a comma or a closing bracket: none is the common case.
pub fn mark(t: &Classes, text: &[u8], at: usize) -> Result<Step, Refused>
    requires { (at ≤ length text.now) × (length text.now ≤ text_max) }
    ensures { Stepped text.now (spaces at 0 0 (drop at text.now)) at result }
{
    let x = slices::byte_at(text, at, 0);
    if b'#' < x {
        return Ok(Step { at, byte: x });
    }
    blank(t, text, at)
}

// Whitespace and comments before a token: none or one space is the common case. The hint is for LLVM, which else leaves a call here: a
// fifth to a quarter more instructions for dense texts, and more stack for each bracket.
#[inline]
pub fn next(t: &Classes, text: &[u8], at: usize) -> Result<Step, Refused>
    requires { (at ≤ length text.now) × (length text.now ≤ text_max) }
    ensures { Stepped text.now (spaces at 0 0 (drop at text.now)) at result }
{
    let x = slices::byte_at(text, at, 0);
    if b'#' < x {
        return Ok(Step { at, byte: x });
    }
    if x == b'"' {
        return Ok(Step { at, byte: x });
    }
    if x == b' ' {
        let y = slices::byte_at(text, at, 1);
        if b'#' < y {
            return Ok(Step {
                at: at + 1,
                byte: y,
            });
        }
        if y == b'"' {
            return Ok(Step {
                at: at + 1,
                byte: y,
            });
        }
    }
    blank(t, text, at)
}

// What can't stand at a place.
pub fn misplaced(text: &[u8], at: usize) -> Refusal
    ensures { result ≡ absent (drop at text.now) }
{
    if text.len() <= at {
        return Refusal::CutOff;
    }
    Refusal::Misplaced
}

// A colon and the blanks on both sides of it.
pub fn around_colon(t: &Classes, text: &[u8], at: usize) -> Result<Step, Refused>
    requires { (at ≤ length text.now) × (length text.now ≤ text_max) }
    ensures { Stepped text.now (seq spaces (seq colon spaces) at 0 0 (drop at text.now)) at result }
{
    let colon = mark(t, text, at)?;
    if colon.byte != b':' {
        return Err(misplaced(text, colon.at).at(colon.at));
    }
    next(t, text, colon.at + 1)
}

// The node of a token that is its own text.
pub(crate) fn plain_node(
    kind: u64,
    len: usize,
    at: usize,
    n: usize,
    notes: &mut [u64; NODE_MAX],
) -> Result<Noted, Refused>
    requires { (kind ≤ 5) × (len ≤ text_max) × (at ≤ text_max) × (n ≤ node_max) }
    ensures { (text : List ℕ) (m : ℕ) → at + len ≤ length text → Told text (limited (plain kind len) at n m (drop at text)) at n m result notes.old notes.new }
{
    if NODE_MAX <= n {
        return Err(Refusal::TooMany.at(at));
    }
    nodes::note(n, kind, 1, at, len, notes);
    Ok(Noted {
        at: at + len,
        nodes: n + 1,
    })
}

// The kind of the value whose name begins with the byte x.
pub(crate) fn name_kind(x: u8) -> u64
    ensures { (result ≡ name_kind x) × (result ≤ 2) }
{
    if x == b't' {
        return 2;
    }
    if x == b'f' {
        return 1;
    }
    0
}

fn wide(kind: u32) -> u64
    ensures { result ≡ kind }
{
    kind as u64
}

pub(crate) fn word_node(
    text: &[u8],
    at: usize,
    n: usize,
    notes: &mut [u64; NODE_MAX],
) -> Result<Noted, Refused>
    requires { Place text.now at n }
    ensures { (m : ℕ) → Told text.now (word at n m (drop at text.now)) at n m result notes.old notes.new }
{
    let len = words::word_len(text, at);
    match words::value_of(&text[at..at + len]) {
        Some(kind) => plain_node(wide(kind), len, at, n, notes),
        None => Err(Refusal::Misplaced.at(at)),
    }
}

pub(crate) fn number_node(
    text: &[u8],
    at: usize,
    n: usize,
    notes: &mut [u64; NODE_MAX],
) -> Result<Noted, Refused>
    requires { Place text.now at n }
    ensures { (m : ℕ) → Told text.now (number at n m (drop at text.now)) at n m result notes.old notes.new }
{
    match numbers::number_at(text, at) {
        Some(v) => plain_node(wide(v.kind), v.len, at, n, notes),
        None => Err(Refusal::BadNumber.at(at)),
    }
}
