// What judging a string answers.

// A string at the head of a text. Where no backslash stands in it: the length of its mark and the place of its closing quote; where one
// does: the place behind its closing quote and the number of bytes that it denotes.
#[derive(Clone, Copy)]
pub enum Quoted {
    Plain(usize, usize),
    Slashed(usize, usize),
}
