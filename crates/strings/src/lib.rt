// J8 strings, read: the token reader and the string reader.
#![tactic(auto)]

pub mod answers;
pub mod read;
pub mod singles;
