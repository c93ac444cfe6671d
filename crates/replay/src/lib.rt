// A list of an upload's calls, run from a text and a plan.
#![tactic(auto)]

pub mod replays;
