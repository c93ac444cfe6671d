// J8 strings, written.
#![tactic(auto)]

pub mod write;
