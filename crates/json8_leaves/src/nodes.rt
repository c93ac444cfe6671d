// Nodes as a pass notes them, and what the readers of parts of a text answer each other.
ghost use Rattle.std.specs.Prelude.{◌≡◌, ◌≤◌, ◌<◌, set};
ghost use Rattle.prelude.specs.Limits.{text_max, node_max};
ghost use Rattle.json8.specs.Nodes.{node};
ghost use Rattle.json8_leaves.specs.inner.Told.{noted};

use prelude::limits::NODE_MAX;

// The place behind what was read, and the nodes so far.
#[derive(Clone, Copy)]
pub struct Noted {
    pub at: usize,
    pub nodes: usize,
}

// The place behind what makes no nodes, and the byte there, 0 past the end.
#[derive(Clone, Copy)]
pub struct Step {
    pub at: usize,
    pub byte: u8,
}

fn wide(x: usize) -> u64
    ensures { result ≡ x }
{
    x as u64
}

// Notes a node as one number. The place of a string is always that in the text.
pub fn note(
    n: usize,
    kind: u64,
    count: usize,
    place: usize,
    size: usize,
    notes: &mut [u64; NODE_MAX],
)
    requires { (n < node_max) × (kind ≤ 8) × (count ≤ node_max) × (place ≤ text_max) × (size ≤ text_max) }
    ensures { notes.new ≡ set notes.old n (noted (node kind count place size)) }
{
    notes[n] = 4294967296 * wide(place) + 65536 * wide(size) + 2048 * kind + wide(count);
}
