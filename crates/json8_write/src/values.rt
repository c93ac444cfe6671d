// The texts of the nodes of a fit table. Values and groups, which are lists and dicts, call each other, and the brackets that may still be
// opened fall at each call.
ghost use Rattle.std.specs.Prelude.{true, ◌≡◌, ◌+◌, ◌≤◌, drop};
ghost use Rattle.rooms.specs.inner.Puts.{room_max, Put};
ghost use Rattle.json8.specs.declared.nodes.Sort.TheVariants.{Pairs};
ghost use Rattle.prelude.specs.Limits.{node_max};
ghost use Rattle.trees.specs.Tables.{nodes_in, count_at, string_of, number_of, leaf_of, label_size, label_at, member_size, tree_at, grouped};
ghost use Rattle.json8_fit.specs.Fitness.{is_fit};
ghost use Rattle.json8_fit.specs.inner.Steps.{Inside, node_at, within};
ghost use Rattle.json8_write.specs.inner.Texts.{tree_text, string_text, label_text, member_text, body_text};

use crate::texts;
use json8::nodes::Sort;
use json8_fit::nodes;
use rooms::parts;
use utf8::classes::Classes;

// A string of kind 5 or 6. It is fit, so its range lies inside its buffer.
fn string_text(
    t: &Classes,
    table: &[u32],
    text: &[u8],
    store: &[u8],
    i: usize,
    room: usize,
    o: usize,
    out: &mut [u8],
) -> usize
    requires { Inside table.now i × (is_fit (string_of text.now store.now (node_at i table.now)) ≡ true) × (room ≤ room_max) }
    ensures { Put (string_text (string_of text.now store.now (node_at i table.now))) room o result out.old out.new }
{
    let place = nodes::number_in(table, 4 * i + 2);
    let size = nodes::number_in(table, 4 * i + 3);
    if table[4 * i] == 5 {
        return parts::put_string(t, &text[place..place + size], room, o, out);
    }
    parts::put_string(t, &store[place..place + size], room, o, out)
}

// A number, as it stands in the text.
fn number_text(table: &[u32], text: &[u8], i: usize, room: usize, o: usize, out: &mut [u8]) -> usize
    requires { Inside table.now i × (is_fit (number_of text.now (node_at i table.now)) ≡ true) × (room ≤ room_max) }
    ensures { Put (tree_text (number_of text.now (node_at i table.now))) room o result out.old out.new }
{
    let place = nodes::number_in(table, 4 * i + 2);
    let size = nodes::number_in(table, 4 * i + 3);
    parts::put_run(text, place, size, room, o, out)
}

// A node that holds no other.
fn leaf_text(
    t: &Classes,
    table: &[u32],
    text: &[u8],
    store: &[u8],
    i: usize,
    room: usize,
    o: usize,
    out: &mut [u8],
) -> usize
    requires { Inside table.now i × (is_fit (leaf_of text.now store.now (node_at i table.now)) ≡ true) × (room ≤ room_max) }
    ensures { Put (tree_text (leaf_of text.now store.now (node_at i table.now))) room o result out.old out.new }
{
    let kind = table[4 * i];
    if 4 < kind {
        return string_text(t, table, text, store, i, room, o, out);
    }
    if 2 < kind {
        return number_text(table, text, i, room, o, out);
    }
    texts::put_word(kind, room, o, out)
}

fn key_text(
    t: &Classes,
    table: &[u32],
    text: &[u8],
    store: &[u8],
    i: usize,
    room: usize,
    o: usize,
    out: &mut [u8],
) -> usize
    requires { (is_fit (label_at Pairs text.now store.now (drop i (nodes_in table.now))) ≡ true) × (room ≤ room_max) }
    ensures { Put (label_text Pairs (label_at Pairs text.now store.now (drop i (nodes_in table.now)))) room o result out.old out.new }
{
    let p = string_text(t, table, text, store, i, room, o, out);
    parts::put_byte(b':', room, p, out)
}

// What stands before a member's value: nothing, or its key and a colon.
fn label_text(
    t: &Classes,
    table: &[u32],
    text: &[u8],
    store: &[u8],
    i: usize,
    sort: Sort,
    room: usize,
    o: usize,
    out: &mut [u8],
) -> usize
    requires { (is_fit (label_at sort text.now store.now (drop i (nodes_in table.now))) ≡ true) × (room ≤ room_max) }
    ensures { Put (label_text sort (label_at sort text.now store.now (drop i (nodes_in table.now)))) room o result out.old out.new }
{
    match sort {
        Sort::Items => o,
        Sort::Pairs => key_text(t, table, text, store, i, room, o, out),
    }
}

// A value, with so many brackets left.
#[cycle(group_text_member_text_members_text_value_text)]
fn value_text(
    t: &Classes,
    table: &[u32],
    text: &[u8],
    store: &[u8],
    i: usize,
    left: usize,
    room: usize,
    o: usize,
    out: &mut [u8],
) -> usize
    requires { (i + count_at (drop i (nodes_in table.now)) ≤ node_max) × (is_fit (tree_at left text.now store.now (drop i (nodes_in table.now))) ≡ true) × (room ≤ room_max) }
    ensures { Put (tree_text (tree_at left text.now store.now (drop i (nodes_in table.now)))) room o result out.old out.new }
{
    match nodes::sort_of(table[4 * i]) {
        Some(sort) => group_text(t, table, text, store, i, left, sort, room, o, out),
        None => leaf_text(t, table, text, store, i, room, o, out),
    }
}

// A member: its comma, its key and its value.
#[cycle(group_text_member_text_members_text_value_text)]
fn member_text(
    t: &Classes,
    table: &[u32],
    text: &[u8],
    store: &[u8],
    i: usize,
    left: usize,
    sort: Sort,
    first: bool,
    room: usize,
    o: usize,
    out: &mut [u8],
) -> usize
    requires { (i + member_size sort (drop i (nodes_in table.now)) ≤ node_max) × (is_fit (label_at sort text.now store.now (drop i (nodes_in table.now))) ≡ true) × (is_fit (tree_at left text.now store.now (drop (label_size sort) (drop i (nodes_in table.now)))) ≡ true) × (room ≤ room_max) }
    ensures { Put (member_text sort (label_at sort text.now store.now) (tree_at left text.now store.now) first (drop i (nodes_in table.now))) room o result out.old out.new }
{
    let p = texts::put_comma(first, room, o, out);
    let q = label_text(t, table, text, store, i, sort, room, p, out);
    value_text(
        t,
        table,
        text,
        store,
        i + nodes::label_size(sort),
        left,
        room,
        q,
        out,
    )
}

// A group: its members in brackets.
#[cycle(group_text_member_text_members_text_value_text)]
fn group_text(
    t: &Classes,
    table: &[u32],
    text: &[u8],
    store: &[u8],
    i: usize,
    left: usize,
    sort: Sort,
    room: usize,
    o: usize,
    out: &mut [u8],
) -> usize
    requires { Inside table.now i × (i + (node_at i table.now).count ≤ node_max) × (is_fit (grouped left text.now store.now sort (node_at i table.now) (drop (i + 1) (nodes_in table.now))) ≡ true) × (room ≤ room_max) }
    ensures { Put (tree_text (grouped left text.now store.now sort (node_at i table.now) (drop (i + 1) (nodes_in table.now)))) room o result out.old out.new }
{
    let count = nodes::number_in(table, 4 * i + 1);
    let members = nodes::number_in(table, 4 * i + 3);
    let p = texts::put_open(sort, room, o, out);
    let q = members_text(
        t,
        table,
        text,
        store,
        i + 1,
        members,
        count - 1,
        left - 1,
        sort,
        room,
        p,
        out,
    );
    texts::put_close(sort, room, q, out)
}

// So many members from node i on, which fill w nodes. A table is written as its one root, so that only groups call this again.
#[cycle(group_text_member_text_members_text_value_text)]
pub(crate) fn members_text(
    t: &Classes,
    table: &[u32],
    text: &[u8],
    store: &[u8],
    i: usize,
    members: usize,
    w: usize,
    left: usize,
    sort: Sort,
    room: usize,
    o: usize,
    out: &mut [u8],
) -> usize
    requires { (i + w ≤ node_max) × (is_fit (within sort table.now text.now store.now left members w i) ≡ true) × (room ≤ room_max) }
    ensures { Put (body_text true (within sort table.now text.now store.now left members w i)) room o result out.old out.new }
{
    let mut more = members;
    let mut at = i;
    let mut first = true;
    let mut p = o;
    while 0 < more {
        p = member_text(t, table, text, store, at, left, sort, first, room, p, out);
        at += nodes::member_size(table, at, sort);
        more -= 1;
        first = false;
    }
    p
}
