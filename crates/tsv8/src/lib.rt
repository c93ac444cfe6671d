// TSV8: names, types and cells read from a whole text.
#![tactic(auto)]

pub mod answers;
mod heads;
pub mod read;
mod rows;
mod stores;
mod types;
