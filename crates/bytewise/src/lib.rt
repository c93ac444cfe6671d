// Data written in `""` byte by byte where the room is known to suffice: what stands as it is, and what has an escape.
#![tactic(auto)]

pub mod front;
pub mod rest;
