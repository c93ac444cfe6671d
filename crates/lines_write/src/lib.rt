// J8 Lines, written from records.
#![tactic(auto)]

pub mod write;
