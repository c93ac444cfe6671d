// JSON8 as definitions: the node table, the grammar, and what a text is read to; claims of these, and no code.
#![tactic(auto)]

pub mod answers;
pub mod nodes;
