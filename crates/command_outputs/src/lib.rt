// What a run of the command prints, at once or by pages, and how it ends.
#![tactic(auto)]

pub mod outcomes;
pub mod outputs;
pub mod pages;
