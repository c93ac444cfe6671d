// Parts of a text, put at a place as far as room and buffer reach.
#![tactic(auto)]

pub mod parts;
