// How a J8 string is noted: its styles, their opening marks, and what is literal in them.
#![tactic(auto)]

pub mod marks;
pub mod styles;
