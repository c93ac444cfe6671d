// Whether a table is fit. Values and groups, which are lists and dicts, call each other, and the brackets that may still be opened fall at each call.
ghost use Rattle.std.specs.Prelude.{◌≡◌, ◌+◌, ◌≤◌, ◌<◌, drop};
ghost use Rattle.json8.specs.declared.nodes.Sort.TheVariants.{Pairs};
ghost use Rattle.prelude.specs.Limits.{node_max};
ghost use Rattle.trees.specs.Tables.{nodes_in, count_at, string_of, number_of, leaf_of, label_at, tree_at, grouped, tree_of};
ghost use Rattle.json8_fit.specs.inner.Steps.{Inside, node_at, member_fit, within};
ghost use Rattle.json8_fit.specs.Fitness.{is_fit};

use crate::nodes;
use json8::nodes::Sort;
use json8_show::show;
use prelude::limits::{DEPTH_MAX, NODE_MAX};

// A string of kind 5 or 6 in its buffer.
fn is_string(table: &[u32], text: &[u8], store: &[u8], i: usize) -> bool
    requires { Inside table.now i }
    ensures { result ≡ is_fit (string_of text.now store.now (node_at i table.now)) }
{
    match show::shown_at(table, text.len(), store.len(), i) {
        Some(_) => true,
        None => false,
    }
}

// A number in the text, legal for its kind.
fn is_number(table: &[u32], text: &[u8], i: usize) -> bool
    requires { Inside table.now i × (0 < (node_at i table.now).kind) }
    ensures { result ≡ is_fit (number_of text.now (node_at i table.now)) }
{
    let place = nodes::number_in(table, 4 * i + 2);
    let size = nodes::number_in(table, 4 * i + 3);
    if !show::is_within(place, size, text.len()) {
        return false;
    }
    nodes::is_legal(table[4 * i], &text[place..place + size])
}

// A node that holds no other.
fn is_leaf(table: &[u32], text: &[u8], store: &[u8], i: usize) -> bool
    requires { Inside table.now i }
    ensures { result ≡ is_fit (leaf_of text.now store.now (node_at i table.now)) }
{
    if table[4 * i + 1] != 1 {
        return false;
    }
    let kind = table[4 * i];
    if kind < 3 {
        return true;
    }
    if kind < 5 {
        return is_number(table, text, i);
    }
    is_string(table, text, store, i)
}

fn is_key(table: &[u32], text: &[u8], store: &[u8], i: usize) -> bool
    ensures { result ≡ is_fit (label_at Pairs text.now store.now (drop i (nodes_in table.now))) }
{
    if nodes::count_at(table, i) != 1 {
        return false;
    }
    is_string(table, text, store, i)
}

// What stands before a member's value: nothing, or its key.
fn is_label(table: &[u32], text: &[u8], store: &[u8], i: usize, sort: Sort) -> bool
    ensures { result ≡ is_fit (label_at sort text.now store.now (drop i (nodes_in table.now))) }
{
    match sort {
        Sort::Items => true,
        Sort::Pairs => is_key(table, text, store, i),
    }
}

// A value, with so many brackets left.
#[cycle(are_members_is_group_is_member_is_value)]
fn is_value(table: &[u32], text: &[u8], store: &[u8], i: usize, left: usize) -> bool
    requires { i + count_at (drop i (nodes_in table.now)) ≤ node_max }
    ensures { result ≡ is_fit (tree_at left text.now store.now (drop i (nodes_in table.now))) }
{
    if table.len() / 4 <= i {
        return false;
    }
    match nodes::sort_of(table[4 * i]) {
        Some(sort) => is_group(table, text, store, i, left, sort),
        None => is_leaf(table, text, store, i),
    }
}

// A member in w nodes that are left.
#[cycle(are_members_is_group_is_member_is_value)]
fn is_member(
    table: &[u32],
    text: &[u8],
    store: &[u8],
    i: usize,
    w: usize,
    left: usize,
    sort: Sort,
) -> bool
    requires { i + w ≤ node_max }
    ensures { result ≡ member_fit sort (label_at sort text.now store.now) (tree_at left text.now store.now) w (drop i (nodes_in table.now)) }
{
    if w < nodes::member_size(table, i, sort) {
        return false;
    }
    if !is_label(table, text, store, i, sort) {
        return false;
    }
    is_value(table, text, store, i + nodes::label_size(sort), left)
}

// A group: its members fill its nodes.
#[cycle(are_members_is_group_is_member_is_value)]
fn is_group(table: &[u32], text: &[u8], store: &[u8], i: usize, left: usize, sort: Sort) -> bool
    requires { Inside table.now i × (i + (node_at i table.now).count ≤ node_max) }
    ensures { result ≡ is_fit (grouped left text.now store.now sort (node_at i table.now) (drop (i + 1) (nodes_in table.now))) }
{
    if left == 0 {
        return false;
    }
    let count = nodes::number_in(table, 4 * i + 1);
    if count == 0 {
        return false;
    }
    let members = nodes::number_in(table, 4 * i + 3);
    are_members(
        table,
        text,
        store,
        i + 1,
        members,
        count - 1,
        left - 1,
        sort,
    )
}

// So many members from node i on, which fill w nodes.
#[cycle(are_members_is_group_is_member_is_value)]
fn are_members(
    table: &[u32],
    text: &[u8],
    store: &[u8],
    i: usize,
    members: usize,
    w: usize,
    left: usize,
    sort: Sort,
) -> bool
    requires { i + w ≤ node_max }
    ensures { result ≡ is_fit (within sort table.now text.now store.now left members w i) }
{
    let mut more = members;
    let mut free = w;
    let mut at = i;
    while 0 < more {
        if !is_member(table, text, store, at, free, left, sort) {
            return false;
        }
        let size = nodes::member_size(table, at, sort);
        at += size;
        free -= size;
        more -= 1;
    }
    free == 0
}

// Whether a table is fit to be written: its root is the one member of its nodes.
pub fn fit(table: &[u32], text: &[u8], store: &[u8]) -> bool
    ensures { result ≡ is_fit (tree_of (nodes_in table.now) text.now store.now) }
{
    let count = nodes::count_at(table, 0);
    if NODE_MAX < count {
        return false;
    }
    if table.len() / 4 < count {
        return false;
    }
    are_members(table, text, store, 0, 1, count, DEPTH_MAX, Sort::Items)
}
