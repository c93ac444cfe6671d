// Notes spread into a table and a store.
ghost use Rattle.std.specs.Prelude.{[], ◌∷◌, ◌≡◌, ◌+◌, ◌*◌, ◌≤◌, ◌<◌, length, take, set};
ghost use Rattle.std.proofs.lemmas.List.Edits.{sets};
ghost use Rattle.prelude.specs.Limits.{text_max, node_max};
ghost use Rattle.json8.specs.Nodes.{flat};
ghost use Rattle.json8_leaves.specs.inner.Told.{nodes_of, bytes_of};
ghost use Rattle.json8_read.specs.inner.Spread.{node_of, nodes_in, sizes, Fits, AllFit};

use prelude::limits::NODE_MAX;
use string_tokens::fill;
use utf8::classes::Classes;

fn narrow(x: u64) -> u32
    requires { x ≤ text_max }
    ensures { result ≡ x }
{
    x as u32
}

fn index(x: u64) -> usize
    ensures { result ≡ x }
{
    x as usize
}

fn wide(x: usize) -> u64
    ensures { result ≡ x }
{
    x as u64
}

fn kind_of(v: u64) -> u64
    ensures { result ≡ (node_of v).kind }
{
    v % 65536 / 2048
}

fn count_of(v: u64) -> u64
    ensures { result ≡ (node_of v).count }
{
    v % 2048
}

fn place_of(v: u64) -> u64
    ensures { result ≡ (node_of v).place }
{
    v / 4294967296
}

fn size_of(v: u64) -> u64
    ensures { (result ≡ (node_of v).size) × (result ≤ 65535) }
{
    v / 65536 % 65536
}

// What a node takes of the store.
fn stored_by(v: u64) -> u64
    ensures { (result ≡ sizes (node_of v ∷ [])) × (result ≤ 65535) }
{
    if kind_of(v) == 6 {
        return size_of(v);
    }
    0
}

// What the first n nodes take of it.
pub(crate) fn stored(n: usize, notes: &[u64; NODE_MAX]) -> usize
    requires { (n ≤ node_max) × (n ≤ length notes.now) }
    ensures { result ≡ sizes (nodes_in (take n notes.now)) }
{
    let mut m: u64 = 0;
    for i in 0..n {
        m += stored_by(notes[i]);
    }
    index(m)
}

fn put(v: u64, i: usize, table: &mut [u32])
    requires { (v ≤ text_max) × (i < length table.old) }
    ensures { table.new ≡ set table.old i v }
{
    table[i] = narrow(v);
}

// Stores the node of a number.
fn put_node(i: usize, kind: u64, count: u64, place: u64, size: u64, table: &mut [u32])
    requires { (4 * i + 4 ≤ length table.old) × (kind ≤ 8) × (count ≤ node_max) × (place ≤ text_max) × (size ≤ text_max) }
    ensures { table.new ≡ sets table.old (4 * i) (kind ∷ count ∷ place ∷ size ∷ []) }
{
    put(kind, 4 * i, table);
    put(count, 4 * i + 1, table);
    put(place, 4 * i + 2, table);
    put(size, 4 * i + 3, table);
}

// One node behind i others in a table, and the bytes of a string with an escape behind m others in a store; the bytes then.
fn spread_node(
    t: &Classes,
    text: &[u8],
    v: u64,
    i: usize,
    m: usize,
    table: &mut [u32],
    store: &mut [u8],
) -> usize
    requires { Fits text.now (node_of v) i m table.old store.old }
    ensures count { result ≡ m + length (bytes_of text.now (node_of v ∷ [])) }
    ensures nodes { table.new ≡ sets table.old (4 * i) (flat (nodes_of m (node_of v ∷ []))) }
    ensures bytes { store.new ≡ sets store.old m (bytes_of text.now (node_of v ∷ [])) }
{
    if kind_of(v) == 6 {
        let at = index(place_of(v));
        let e = m + index(size_of(v));
        fill::fill(t, &text[at..], &mut store[m..e]);
        put_node(i, 6, 1, wide(m), size_of(v), table);
        return e;
    }
    put_node(i, kind_of(v), count_of(v), place_of(v), size_of(v), table);
    m
}

// The first n nodes in front of a table, and the bytes of strings with an escape in front of a store; how many bytes.
pub(crate) fn spread(
    t: &Classes,
    text: &[u8],
    n: usize,
    notes: &[u64; NODE_MAX],
    table: &mut [u32],
    store: &mut [u8],
) -> usize
    requires { (n ≤ node_max) × (n ≤ length notes.now) × AllFit text.now (nodes_in (take n notes.now)) table.old store.old }
    ensures count { result ≡ length (bytes_of text.now (nodes_in (take n notes.now))) }
    ensures nodes { table.new ≡ sets table.old 0 (flat (nodes_of 0 (nodes_in (take n notes.now)))) }
    ensures bytes { store.new ≡ sets store.old 0 (bytes_of text.now (nodes_in (take n notes.now))) }
{
    let mut m: usize = 0;
    for i in 0..n {
        m = spread_node(t, text, notes[i], i, m, table, store);
    }
    m
}
