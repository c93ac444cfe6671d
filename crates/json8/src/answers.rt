// What reading answers, or a refusal and its place; specs/Read.antt gives it from the text.

// A text read: its nodes and the bytes in the store.
#[derive(Clone, Copy)]
pub struct Parsed {
    pub nodes: usize,
    pub stored: usize,
}
