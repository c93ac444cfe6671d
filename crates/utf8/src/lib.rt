// UTF-8: the class of each byte value, the character check, validity of a whole text, the bytes of a code point.
#![tactic(auto)]

pub mod chars;
pub mod classes;
pub mod encoding;
