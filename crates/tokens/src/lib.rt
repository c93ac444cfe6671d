// JSON8's lexical layer: what stands between tokens, words, numbers, and what begins at a place.
#![tactic(auto)]

pub mod blanks;
pub mod numbers;
pub mod starts;
pub mod words;
