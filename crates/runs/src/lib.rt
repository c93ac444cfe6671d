// Literal characters by blocks and runs: where the units behind a place are no longer literal.
#![tactic(auto)]

pub mod blocks;
pub mod literals;
pub mod shorts;
pub mod threes;
