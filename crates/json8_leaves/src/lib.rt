// JSON8: readers of what holds no other value, and the nodes that they note.
#![tactic(auto)]

pub mod leaves;
pub mod nodes;
pub mod quoted;
