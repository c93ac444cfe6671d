// J8 Lines: one line, bare or quoted.
#![tactic(auto)]

pub mod bare;
pub mod read;
pub mod strip;
