// The J8 Lines upload: a state by value, fed in pieces.
#![tactic(auto)]

pub mod pieces;
pub mod uploads;
