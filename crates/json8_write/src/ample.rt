// Room that is enough for a table's text, told by its nodes alone.
ghost use Rattle.std.specs.Prelude.{◌≡◌, ◌/◌, ◌≤◌, ◌<◌, length};
ghost use Rattle.prelude.specs.Limits.{node_max};
ghost use Rattle.trees.specs.Tables.{nodes_in};
ghost use Rattle.trees.specs.Rooms.{bytes_held, room_of};
ghost use Rattle.json8_fit.specs.inner.Steps.{Inside, node_at};

use json8_fit::nodes;

// The bytes of a node that is a string or a number.
fn bytes_held(table: &[u32], i: usize) -> usize
    requires { Inside table.now i }
    ensures { (result ≡ bytes_held (node_at i table.now)) × (result < 4294967296) }
{
    let kind = table[4 * i];
    if kind < 3 {
        return 0;
    }
    if kind <= 6 {
        return nodes::number_in(table, 4 * i + 3);
    }
    0
}

// Room for the text of the first n nodes.
pub(crate) fn room_of(table: &[u32], n: usize) -> usize
    requires { (n ≤ node_max) × (n ≤ length table.now / 4) }
    ensures { result ≡ room_of n (nodes_in table.now) }
{
    let mut room: usize = 0;
    for i in 0..n {
        room += 6 * (1 + bytes_held(table, i));
    }
    room
}
