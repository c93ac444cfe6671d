// What a run of the command says of its end.
#![tactic(auto)]

mod misplaced;
pub mod reports;
