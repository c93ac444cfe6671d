// A table's numbers, and whether a node's number text is legal.
ghost use Rattle.std.specs.Prelude.{◌≡◌, ◌+◌, ◌*◌, ◌≤◌, ◌<◌, length, get_or, drop};
ghost use Rattle.tokens.specs.Numbers.{number_kind, kind_told};
ghost use Rattle.prelude.specs.Limits.{node_max};
ghost use Rattle.trees.specs.Tables.{nodes_in, count_at, label_size, member_size};
ghost use Rattle.json8_fit.specs.inner.Steps.{sort_of, is_kind};

use json8::nodes::Sort;
use tokens::numbers;

// The sort of a group, which is a list or a dict, by its kind; none of a value that holds no other.
pub fn sort_of(kind: u32) -> Option<Sort>
    ensures { result ≡ sort_of kind }
{
    if kind == 7 {
        return Some(Sort::Items);
    }
    if kind == 8 {
        return Some(Sort::Pairs);
    }
    None
}

pub fn label_size(sort: Sort) -> usize
    ensures { (result ≡ label_size sort) × (result ≤ 1) }
{
    match sort {
        Sort::Items => 0,
        Sort::Pairs => 1,
    }
}

// A number of the table.
pub fn number_in(table: &[u32], i: usize) -> usize
    requires { i < length table.now }
    ensures { (result ≡ get_or table.now i 0) × (result < 4294967296) }
{
    table[i] as usize
}

// The nodes in the subtree of node i, or 0 outside the table.
pub fn count_at(table: &[u32], i: usize) -> usize
    ensures { (result ≡ count_at (drop i (nodes_in table.now))) × (result < 4294967296) }
{
    if table.len() / 4 <= i {
        return 0;
    }
    number_in(table, 4 * i + 1)
}

// The nodes of the member at a place, its key's among them.
pub fn member_size(table: &[u32], at: usize, sort: Sort) -> usize
    requires { at ≤ node_max }
    ensures { (result ≡ member_size sort (drop at (nodes_in table.now))) × (result ≤ 4294967296) }
{
    let k = label_size(sort);
    k + count_at(table, at + k)
}

// Whether a text is a number of this kind, all of it.
pub(crate) fn is_legal(kind: u32, s: &[u8]) -> bool
    ensures { result ≡ is_kind kind (kind_told (number_kind s.now)) }
{
    match numbers::kind_of(s) {
        Some(k) => k == kind,
        None => false,
    }
}
