// Where cells and lines end.
ghost use Rattle.std.specs.Prelude.{true, ◌≡◌, ◌+◌, ◌≤◌, eqb, length, drop};
ghost use Rattle.line_ends.specs.inner.Ends.{line_run};
ghost use Rattle.string_tokens.specs.inner.Quotes.{Plains};
ghost use Rattle.tsv8_cells.specs.Parts.{is_gap};
ghost use Rattle.tsv8_cells.specs.inner.Runs.{cell_run, gap_run, Starts, cells_at, Left};

use prelude::slices;
use string_tokens::quoted;

// A cell's end, and whether only plain bytes stand before it.
#[derive(Clone, Copy)]
pub(crate) struct Span {
    pub end: usize,
    pub plain: bool,
}

// The next tab or LF from a place on, or the text's end.
pub fn end_from(text: &[u8], from: usize) -> usize
    requires { from ≤ length text.now }
    ensures { result ≡ from + cell_run (drop from text.now) }
{
    for at in from..text.len() {
        let x = text[at];
        if x == b'\t' {
            return at;
        }
        if x == b'\n' {
            return at;
        }
    }
    text.len()
}

// The same, by eights as long as bytes are plain.
pub(crate) fn cell_end(text: &[u8], from: usize) -> Span
    requires { from ≤ length text.now }
    ensures end { result.end ≡ from + cell_run (drop from text.now) }
    ensures plain { result.plain ≡ true → Plains text.now from result.end }
{
    let at = quoted::plains_on(text, from);
    let x = slices::byte_at(text, at, 0);
    if x == b'\t' {
        return Span {
            end: at,
            plain: true,
        };
    }
    if x == b'\n' {
        return Span {
            end: at,
            plain: true,
        };
    }
    Span {
        end: end_from(text, at),
        plain: false,
    }
}

// How many cells stand in a line from a place on, at which a tab stands or the line ends.
pub fn tabs(text: &[u8], from: usize) -> usize
    requires { (from ≤ length text.now) × Starts text.now from }
    ensures { result ≡ length (cells_at text.now from) }
{
    let mut at = from;
    let mut n: usize = 0;
    // By while: a turn goes on by as much as what stands there takes.
    while at < text.len() {
        if text[at] != b'\t' {
            return n;
        }
        at = end_from(text, at + 1);
        n += 1;
    }
    n
}

fn is_gap(x: u8) -> bool
    ensures { result ≡ is_gap x }
{
    if x == b' ' {
        return true;
    }
    x == b'\r'
}

// The place behind spaces and CRs.
pub fn gap(text: &[u8], from: usize) -> usize
    requires { from ≤ length text.now }
    ensures { result ≡ from + gap_run (drop from text.now) }
{
    for at in from..text.len() {
        if !is_gap(text[at]) {
            return at;
        }
    }
    text.len()
}

// Whether a line ends at a place.
pub fn is_end(text: &[u8], at: usize) -> bool
    ensures { result ≡ eqb (line_run (drop at text.now)) 0 }
{
    if at < text.len() {
        return text[at] == b'\n';
    }
    true
}

// The place of the next line that isn't ignored, of those from a place on; the text's end or behind it where none is left.
pub fn line_from(text: &[u8], from: usize) -> usize
    requires { from ≤ length text.now + 1 }
    ensures { Left text.now from result }
{
    let mut at = from;
    // By while: a turn goes on by as much as what stands there takes.
    while at < text.len() {
        let e = gap(text, at);
        if !is_end(text, e) {
            return at;
        }
        at = e + 1;
    }
    at
}
