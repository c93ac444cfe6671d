// JSON8: a string of a node table shown.
#![tactic(auto)]

pub mod show;
