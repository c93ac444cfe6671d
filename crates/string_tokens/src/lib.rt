// A string judged and filled in two steps, for readers of texts that hold many.
#![tactic(auto)]

pub mod answers;
pub mod fill;
pub mod quoted;
mod short_escapes;
