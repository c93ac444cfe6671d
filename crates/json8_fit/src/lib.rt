// JSON8: a node table judged, and its numbers.
#![tactic(auto)]

pub mod fitness;
pub mod nodes;
