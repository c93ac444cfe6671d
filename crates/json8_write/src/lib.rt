// JSON8: a node table written in the one form that reads back as the same tree.
#![tactic(auto)]

mod ample;
mod texts;
mod values;
pub mod write;
