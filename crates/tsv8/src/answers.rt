// What reading answers; specs/Answers.antt gives it from the text.

// A text read: its columns, its cells and the bytes in the store.
#[derive(Clone, Copy)]
pub struct Sheet {
    pub columns: usize,
    pub cells: usize,
    pub stored: usize,
}
