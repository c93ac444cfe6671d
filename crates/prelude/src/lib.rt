// What every layer uses: the refusal numbers, the limits, total reads, clipped stores and copies.
#![tactic(auto)]

pub mod copies;
pub mod limits;
pub mod refusals;
pub mod slices;
