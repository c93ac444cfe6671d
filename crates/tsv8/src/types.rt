// The types of columns, named by words.
ghost use Rattle.std.specs.Prelude.{List, false, ◌≡◌, ℕ, ◌+◌, ◌≤◌, ◌<◌, length, take};
ghost use Rattle.prelude.specs.Limits.{text_max, column_max};
ghost use Rattle.lines.specs.Line.{strip};
ghost use Rattle.tsv8_cells.specs.Parts.{is_ignored};
ghost use Rattle.tsv8_cells.specs.Types.{type_named, types_in, all_strs};
ghost use Rattle.tsv8_cells.specs.Cells.{Cell};
ghost use Rattle.tsv8_cells.specs.inner.Runs.{Starts, line_at, line_end, cells_at};
ghost use Rattle.tsv8_cells.specs.inner.Typed.{type_of};
ghost use Rattle.tsv8.specs.inner.Heads.{TypesTold, TypedTold};

use lines::strip;
use prelude::limits::COLUMN_MAX;
use prelude::refusals::{Refusal, Refused};
use tokens::words;
use tsv8_cells::columns::ColumnType;
use tsv8_cells::ends;

// The type that a text names, if it names one.
fn named(w: &[u8]) -> Option<ColumnType>
    ensures { result ≡ type_of (type_named w.now) }
{
    let bools = [b'B', b'o', b'o', b'l'];
    if words::same(w, &bools) {
        return Some(ColumnType::Bool);
    }
    let ints = [b'I', b'n', b't'];
    if words::same(w, &ints) {
        return Some(ColumnType::Int);
    }
    let floats = [b'F', b'l', b'o', b'a', b't'];
    if words::same(w, &floats) {
        return Some(ColumnType::Float);
    }
    let strs = [b'S', b't', b'r'];
    if words::same(w, &strs) {
        return Some(ColumnType::Str);
    }
    None
}

// The type that a cell names.
fn named_in(c: &[u8]) -> Option<ColumnType>
    ensures { result ≡ type_of (type_named (strip c.now)) }
{
    let a = strip::lead(c);
    let n = strip::trim(&c[a..]);
    named(&c[a..a + n])
}

// The n types that stand in a line from its first tab on; the place behind the line.
fn types_from(
    text: &[u8],
    from: usize,
    n: usize,
    types: &mut [ColumnType; COLUMN_MAX],
) -> Result<usize, Refused>
    requires { (length text.now ≤ text_max) × (from ≤ length text.now) × Starts text.now from × (length (cells_at text.now from) ≡ n) × (n ≤ column_max) × (n ≤ length types.old) }
    ensures { TypesTold (types_in (cells_at text.now from)) (line_end text.now from) n types.new result }
{
    let mut q = from;
    for k in 0..n {
        let e = ends::end_from(text, q + 1);
        let Some(ty) = named_in(&text[q + 1..e]) else {
            return Err(Refusal::BadHeader.at(q + 1));
        };
        types[k] = ty;
        q = e;
    }
    Ok(q + 1)
}

// The types of n columns and the place behind their line, if the line at a place gives them; else it is the next line still.
pub(crate) fn types_at(
    text: &[u8],
    at: usize,
    n: usize,
    types: &mut [ColumnType; COLUMN_MAX],
) -> Result<usize, Refused>
    requires { (length text.now ≤ text_max) × (at ≤ length text.now + 1) × (at < length text.now → is_ignored (line_at text.now at) ≡ false) × (n ≤ column_max) × (n ≤ length types.old) × (take n types.old ≡ all_strs n) }
    ensures { (ns : List Cell) (bs : List ℕ) → length ns ≡ n → TypedTold text.now at ns bs n types.new result }
{
    if text.len() <= at {
        return Ok(at);
    }
    let q = ends::end_from(text, at);
    let mark = [b'!', b't', b'y', b'p', b'e'];
    if !words::same(&text[at..q], &mark) {
        return Ok(at);
    }
    if ends::tabs(text, q) != n {
        return Ok(at);
    }
    types_from(text, q, n, types)
}
