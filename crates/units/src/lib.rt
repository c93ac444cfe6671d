// One unit of a J8 string in any style: a literal character, an escape, the closing quote, or a refusal.
#![tactic(auto)]

pub mod single_escapes;
pub mod units;
pub mod written;
