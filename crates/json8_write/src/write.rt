// Writing a whole table.
ghost use Rattle.std.specs.Prelude.{true, ◌≡◌, ◌≤◌, length};
ghost use Rattle.rooms.specs.inner.Puts.{room_max, Put};
ghost use Rattle.trees.specs.Tables.{nodes_in, tree_of};
ghost use Rattle.json8_fit.specs.Fitness.{is_fit};
ghost use Rattle.json8_write.specs.Write.{wrote_tree, tree_into};
ghost use Rattle.json8_write.specs.inner.Texts.{tree_text};

use crate::{ample, values};
use json8::nodes::Sort;
use json8_fit::{fitness, nodes};
use prelude::limits::DEPTH_MAX;
use prelude::refusals::Refusal;
use utf8::classes::Classes;

// One pass over a fit table: the text of its root is put as far as room and buffer reach.
fn pass(t: &Classes, table: &[u32], text: &[u8], store: &[u8], room: usize, out: &mut [u8]) -> usize
    requires { (is_fit (tree_of (nodes_in table.now) text.now store.now) ≡ true) × (room ≤ room_max) }
    ensures { Put (tree_text (tree_of (nodes_in table.now) text.now store.now)) room 0 result out.old out.new }
{
    let count = nodes::count_at(table, 0);
    values::members_text(
        t,
        table,
        text,
        store,
        0,
        1,
        count,
        DEPTH_MAX,
        Sort::Items,
        room,
        0,
        out,
    )
}

// Writes a table: its text in front of out, or a refusal and out as it was. It is judged first; then one pass over no buffer measures its
// text, and one stores it. Where the room is known to suffice, nothing is measured.
pub fn write(table: &[u32], text: &[u8], store: &[u8], out: &mut [u8]) -> Result<usize, Refusal>
    ensures answer { result ≡ wrote_tree (length out.old) (tree_of (nodes_in table.now) text.now store.now) }
    ensures stored { out.new ≡ tree_into (tree_of (nodes_in table.now) text.now store.now) out.old }
{
    if !fitness::fit(table, text, store) {
        return Err(Refusal::Unfit);
    }
    let t = Classes::new();
    let room = out.len();
    if ample::room_of(table, nodes::count_at(table, 0)) <= room {
        return Ok(pass(&t, table, text, store, room, out));
    }
    let n = pass(&t, table, text, store, room, &mut out[..0]);
    if room < n {
        return Err(Refusal::NoRoom);
    }
    pass(&t, table, text, store, room, out);
    Ok(n)
}
