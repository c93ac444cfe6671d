// The words behind the command's name.
#![tactic(auto)]

pub mod arguments;
