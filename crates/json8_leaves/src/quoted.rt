// Strings, and keys, which are strings or words.
ghost use Rattle.std.specs.Prelude.{List, ◌≡◌, ℕ, ◌+◌, ◌-◌, ◌<◌, ◌≤◌, length, get_or, drop, IfSome};
ghost use Rattle.prelude.specs.Limits.{text_max, node_max};
ghost use Rattle.string_tokens.specs.inner.Quotes.{PlainToken};
ghost use Rattle.json8.specs.Nodes.{limited};
ghost use Rattle.json8.specs.Leaves.{string, key};
ghost use Rattle.json8_leaves.specs.inner.Told.{Place, Told, scalar, ShortLeaf, short_kind};

use crate::nodes::Noted;
use crate::{leaves, nodes};
use prelude::limits::NODE_MAX;
use prelude::refusals::{Refusal, Refused};
use string_tokens::answers::Quoted;
use string_tokens::quoted;
use tokens::starts::Start;
use tokens::{numbers, starts, words};
use utf8::classes::Classes;

// A string of so many bytes in double quotes, without a backslash.
fn short_string(
    len: usize,
    at: usize,
    n: usize,
    notes: &mut [u64; NODE_MAX],
) -> Result<Noted, Refused>
    requires { (2 ≤ len) × (at + len ≤ text_max) × (n ≤ node_max) }
    ensures { (text : List ℕ) (m : ℕ) → length text ≤ text_max → PlainToken (drop at text) 1 (len - 1) → Told text (limited string at n m (drop at text)) at n m result notes.old notes.new }
{
    if NODE_MAX <= n {
        return Err(Refusal::TooMany.at(at));
    }
    nodes::note(n, 5, 1, at + 1, len - 2, notes);
    Ok(Noted {
        at: at + len,
        nodes: n + 1,
    })
}

// The string at a place: its reader is handed the text from the mark on.
fn string_node(
    t: &Classes,
    text: &[u8],
    at: usize,
    n: usize,
    notes: &mut [u64; NODE_MAX],
) -> Result<Noted, Refused>
    requires { Place text.now at n }
    ensures { (m : ℕ) → Told text.now (limited string at n m (drop at text.now)) at n m result notes.old notes.new }
{
    if NODE_MAX <= n {
        return Err(Refusal::TooMany.at(at));
    }
    match quoted::quoted(t, &text[at..]) {
        Ok(Quoted::Plain(k, e)) => {
            nodes::note(n, 5, 1, at + k, e - k, notes);
            Ok(Noted {
                at: at + e + 1,
                nodes: n + 1,
            })
        }
        Ok(Quoted::Slashed(end, count)) => {
            nodes::note(n, 6, 1, at, count, notes);
            Ok(Noted {
                at: at + end,
                nodes: n + 1,
            })
        }
        Err(f) => Err(f.refusal.at(at + f.place)),
    }
}

// A key, by what begins at a place.
fn any_key(
    t: &Classes,
    text: &[u8],
    at: usize,
    n: usize,
    notes: &mut [u64; NODE_MAX],
) -> Result<Noted, Refused>
    requires { Place text.now at n }
    ensures { (m : ℕ) → Told text.now (key at n m (drop at text.now)) at n m result notes.old notes.new }
{
    let start = starts::start_at(text, at);
    match start {
        Start::Ended => Err(Refusal::CutOff.at(at)),
        Start::String => string_leaf(t, text, at, n, notes),
        Start::Word => leaves::plain_node(5, words::word_len(text, at), at, n, notes),
        Start::Number => Err(Refusal::Misplaced.at(at)),
        Start::List => Err(Refusal::Misplaced.at(at)),
        Start::Dict => Err(Refusal::Misplaced.at(at)),
        Start::Nothing => Err(Refusal::Misplaced.at(at)),
    }
}

// A key, which begins with the byte x.
pub fn key_node(
    t: &Classes,
    text: &[u8],
    at: usize,
    x: u8,
    n: usize,
    notes: &mut [u64; NODE_MAX],
) -> Result<Noted, Refused>
    requires { Place text.now at n × (x ≡ get_or (drop at text.now) 0 0) }
    ensures { (m : ℕ) → Told text.now (key at n m (drop at text.now)) at n m result notes.old notes.new }
{
    if x == b'"' {
        return match quoted::short(&text[at..]) {
            Some(len) => short_string(len, at, n, notes),
            None => string_node(t, text, at, n, notes),
        };
    }
    any_key(t, text, at, n, notes)
}

// The same, its answer put together anew: handed on as it is, the bytes between its fields would be copied with it, for every leaf of a text.
fn string_leaf(
    t: &Classes,
    text: &[u8],
    at: usize,
    n: usize,
    notes: &mut [u64; NODE_MAX],
) -> Result<Noted, Refused>
    requires { Place text.now at n }
    ensures { (m : ℕ) → Told text.now (limited string at n m (drop at text.now)) at n m result notes.old notes.new }
{
    match string_node(t, text, at, n, notes) {
        Ok(v) => Ok(Noted {
            at: v.at,
            nodes: v.nodes,
        }),
        Err(f) => Err(f.refusal.at(f.place)),
    }
}

// A value that is no list or dict, by what begins at a place.
fn any_scalar(
    t: &Classes,
    text: &[u8],
    at: usize,
    n: usize,
    notes: &mut [u64; NODE_MAX],
) -> Result<Noted, Refused>
    requires { Place text.now at n }
    ensures { (m : ℕ) → Told text.now (scalar at n m (drop at text.now)) at n m result notes.old notes.new }
{
    let start = starts::start_at(text, at);
    match start {
        Start::Ended => Err(Refusal::CutOff.at(at)),
        Start::String => string_leaf(t, text, at, n, notes),
        Start::Word => leaves::word_node(text, at, n, notes),
        Start::Number => leaves::number_node(text, at, n, notes),
        Start::List => Err(Refusal::Misplaced.at(at)),
        Start::Dict => Err(Refusal::Misplaced.at(at)),
        Start::Nothing => Err(Refusal::Misplaced.at(at)),
    }
}

// The length of a leaf that few bytes tell and that begins with the byte x: a short string without a backslash, a short whole number or a
// value's name; none where another stands.
fn short_len(text: &[u8], at: usize, x: u8) -> Option<usize>
    requires { (at ≤ length text.now) × (x ≡ get_or (drop at text.now) 0 0) }
    ensures { IfSome result (λ n. (0 < n) × ShortLeaf (drop at text.now) x n) }
{
    if x == b'"' {
        return quoted::short(&text[at..]);
    }
    if words::is_digit(x) {
        return numbers::short(text, at, x);
    }
    words::name_len(text, at, x)
}

// The kind of such a leaf that is no string.
fn short_kind(x: u8) -> u64
    ensures { (result ≡ short_kind x) × (result ≤ 3) }
{
    if words::is_digit(x) {
        return 3;
    }
    leaves::name_kind(x)
}

// The node of such a leaf. One way out for all of them: a place and a count, which stay in registers.
fn short_node(
    x: u8,
    len: usize,
    at: usize,
    n: usize,
    notes: &mut [u64; NODE_MAX],
) -> Result<Noted, Refused>
    requires { (x ≡ 0x22 → 2 ≤ len) × (at + len ≤ text_max) × (n ≤ node_max) }
    ensures { (text : List ℕ) (m : ℕ) → length text ≤ text_max → at + len ≤ length text → x ≡ get_or (drop at text) 0 0 → ShortLeaf (drop at text) x len → Told text (scalar at n m (drop at text)) at n m result notes.old notes.new }
{
    if x == b'"' {
        return short_string(len, at, n, notes);
    }
    leaves::plain_node(short_kind(x), len, at, n, notes)
}

// A value that is no list or dict and begins with the byte x.
pub fn scalar_node(
    t: &Classes,
    text: &[u8],
    at: usize,
    x: u8,
    n: usize,
    notes: &mut [u64; NODE_MAX],
) -> Result<Noted, Refused>
    requires { Place text.now at n × (x ≡ get_or (drop at text.now) 0 0) }
    ensures { (m : ℕ) → Told text.now (scalar at n m (drop at text.now)) at n m result notes.old notes.new }
{
    match short_len(text, at, x) {
        Some(len) => short_node(x, len, at, n, notes),
        None => any_scalar(t, text, at, n, notes),
    }
}
