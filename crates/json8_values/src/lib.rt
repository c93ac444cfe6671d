// JSON8: value, list and dict readers, which note nodes.
#![tactic(auto)]

pub mod values;
