// Reading a whole text.
ghost use Rattle.std.specs.Prelude.{true, false, ◌≡◌, ◌/◌, ◌≤◌, ◌<◌, length, take};
ghost use Rattle.prelude.specs.Limits.{text_max, node_max};
ghost use Rattle.json8.specs.Read.{read_all, read_of, parsed_of, table_after, store_after};
ghost use Rattle.json8_leaves.specs.inner.Told.{Told};
ghost use Rattle.json8_read.specs.inner.Spread.{nodes_in, sizes};

use crate::spread;
use json8::answers::Parsed;
use json8_leaves::leaves;
use json8_leaves::nodes::Noted;
use json8_values::values;
use prelude::limits::{DEPTH_MAX, NODE_MAX, TEXT_MAX};
use prelude::refusals::{Refusal, Refused};
use utf8::classes::Classes;

// One pass over a text: it notes the nodes.
fn pass(t: &Classes, text: &[u8], notes: &mut [u64; NODE_MAX]) -> Result<Noted, Refused>
    requires { length text.now ≤ text_max }
    ensures { Told text.now (read_all text.now) 0 0 0 result notes.old notes.new }
{
    let start = leaves::next(t, text, 0)?;
    let found = values::value_node(t, text, start.at, start.byte, DEPTH_MAX, 0, notes)?;
    let end = leaves::mark(t, text, found.at)?;
    if end.at < text.len() {
        return Err(Refusal::Trailing.at(end.at));
    }
    Ok(Noted {
        at: end.at,
        nodes: found.nodes,
    })
}

// Whether the bytes of the first n nodes, of a text of so many bytes, find no room. A store as long as the text has room for all.
fn is_tight(bytes: usize, room: usize, n: usize, notes: &[u64; NODE_MAX]) -> bool
    requires { (n ≤ node_max) × (n ≤ length notes.now) }
    ensures tight { result ≡ true → room < sizes (nodes_in (take n notes.now)) }
    ensures wide { result ≡ false → sizes (nodes_in (take n notes.now)) ≤ bytes → sizes (nodes_in (take n notes.now)) ≤ room }
{
    if bytes <= room {
        return false;
    }
    room < spread::stored(n, notes)
}

// Reads a JSON8 text: its nodes in front of the table and the bytes of its strings with escapes in front of the store, or a refusal
// and both as they were.
pub fn read(text: &[u8], table: &mut [u32], store: &mut [u8]) -> Result<Parsed, Refused>
    ensures answer { result ≡ parsed_of (read_of (length table.old / 4) (length store.old) text.now) }
    ensures nodes { table.new ≡ table_after (read_of (length table.old / 4) (length store.old) text.now) table.old }
    ensures bytes { store.new ≡ store_after (read_of (length table.old / 4) (length store.old) text.now) store.old }
{
    if TEXT_MAX < text.len() {
        return Err(Refusal::TooLong.at(0));
    }
    let t = Classes::new();
    let mut notes = [0u64; NODE_MAX];
    let found = pass(&t, text, &mut notes)?;
    if table.len() / 4 < found.nodes {
        return Err(Refusal::NoRoom.at(0));
    }
    if is_tight(text.len(), store.len(), found.nodes, &notes) {
        return Err(Refusal::NoRoom.at(0));
    }
    let stored = spread::spread(&t, text, found.nodes, &notes, table, store);
    Ok(Parsed {
        nodes: found.nodes,
        stored,
    })
}
