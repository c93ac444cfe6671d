// What reading answers; specs/Read.antt gives each one from the text.

// A string at the head of a text: the place behind its closing quote and its length.
#[derive(Clone, Copy)]
pub struct Token {
    pub end: usize,
    pub len: usize,
}
