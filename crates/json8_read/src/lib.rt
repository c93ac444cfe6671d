// JSON8: a text read to a node table.
#![tactic(auto)]

pub mod read;
mod spread;
