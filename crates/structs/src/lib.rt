// The structs of j8.h, and what the layers below answer turned into them and back.
#![tactic(auto)]

pub mod results;
pub mod sheets;
pub mod tables;
pub mod uploads;
