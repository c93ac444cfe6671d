// J8 Lines in pieces, for the command: books that are read as uploads, and names that are made books.
#![tactic(auto)]

mod ends;
pub mod marks;
mod names;
pub mod uploads;
