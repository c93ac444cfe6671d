// The node table.

// A list or a dict, by its members.
#[derive(Clone, Copy)]
pub enum Sort {
    Items,
    Pairs,
}
