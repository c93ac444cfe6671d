// The cells of TSV8: where they stand in a text, and what one of them is read to.
#![tactic(auto)]

pub mod cells;
pub mod columns;
pub mod ends;
mod simple;
