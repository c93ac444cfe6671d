// The limits of documents 01 and 02; specs/Limits.antt has the same numbers.

// The longest string, JSON8 or TSV8 text.
pub const TEXT_MAX: usize = 32768;

// The longest line, without its LF.
pub const LINE_MAX: usize = 1024;

// The most bytes that an upload takes.
pub const UPLOAD_MAX: usize = 1048576;

// The most nodes that a table may have.
pub const NODE_MAX: usize = 1024;

// How deep brackets may stand in each other.
pub const DEPTH_MAX: usize = 32;

// The most columns of a TSV8 text.
pub const COLUMN_MAX: usize = 64;
