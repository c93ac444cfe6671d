// A whole text judged: its first line, the types, and the lines behind them.
ghost use Rattle.std.specs.Prelude.{List, ◌≡◌, ℕ, ◌+◌, ◌≤◌, ◌<◌, length, take};
ghost use Rattle.prelude.specs.Limits.{text_max, column_max};
ghost use Rattle.tsv8_cells.specs.Types.{all_strs};
ghost use Rattle.tsv8_cells.specs.Cells.{Cell};
ghost use Rattle.tsv8.specs.Read.{behind_names, read_all};
ghost use Rattle.tsv8_cells.specs.inner.Runs.{Starts, lines_from};
ghost use Rattle.tsv8.specs.inner.Heads.{columns_of, AllStrs, BehindTold, HeadTold};

use crate::{rows, types};
use prelude::limits::COLUMN_MAX;
use prelude::refusals::{Refusal, Refused};
use tokens::words;
use tsv8_cells::columns::ColumnType;
use tsv8_cells::ends;
use utf8::classes::Classes;

// A text without a fault: the first tab of its first line, the number of columns, where the lines behind its types begin, its cells, and
// the store's bytes.
#[derive(Clone, Copy)]
pub(crate) struct Outline {
    pub names: usize,
    pub columns: usize,
    pub rest: usize,
    pub cells: usize,
    pub stored: usize,
}

// The number of columns that a first line has, whose first tab is at q; none where it is no such line.
fn columns(text: &[u8], at: usize, q: usize) -> Option<usize>
    requires { (at ≤ q) × (q ≤ length text.now) × Starts text.now q }
    ensures { result ≡ columns_of text.now at q }
{
    let mark = [b'!', b't', b's', b'v', b'8'];
    if !words::same(&text[at..q], &mark) {
        return None;
    }
    let n = ends::tabs(text, q);
    if n == 0 {
        return None;
    }
    if COLUMN_MAX < n {
        return None;
    }
    Some(n)
}

// The lines behind the names, of which the first is at a place.
fn behind_names(
    t: &Classes,
    text: &[u8],
    q: usize,
    n: usize,
    from: usize,
    m: usize,
    types: &mut [ColumnType; COLUMN_MAX],
) -> Result<Outline, Refused>
    requires { (length text.now ≤ text_max) × (from ≤ length text.now + 1) × (0 < n) × (n ≤ column_max) × (m ≤ from) × (n ≤ length types.old) × (take n types.old ≡ all_strs n) }
    ensures { (ns : List Cell) (bs : List ℕ) → length ns ≡ n → length bs ≡ m → BehindTold text.now (behind_names ns bs (lines_from text.now from)) ns bs q n m types.new result }
{
    let at = ends::line_from(text, from);
    let rest = types::types_at(text, at, n, types)?;
    let counted = rows::judge_lines(t, text, rest, n, types, m)?;
    Ok(Outline {
        names: q,
        columns: n,
        rest,
        cells: counted.cells,
        stored: counted.stored,
    })
}

// Judges a text; types are those of names, and are afterwards its own.
pub(crate) fn judge(
    t: &Classes,
    text: &[u8],
    types: &mut [ColumnType; COLUMN_MAX],
) -> Result<Outline, Refused>
    requires { (length text.now ≤ text_max) × AllStrs types.old }
    ensures { HeadTold text.now (read_all text.now) types.new result }
{
    let at = ends::line_from(text, 0);
    if text.len() <= at {
        return Err(Refusal::BadHeader.at(0));
    }
    let q = ends::end_from(text, at);
    let Some(n) = columns(text, at, q) else {
        return Err(Refusal::BadHeader.at(at));
    };
    let row = rows::judge_row(t, text, at, q, n, types, 0)?;
    behind_names(t, text, q, n, row.end + 1, row.stored, types)
}
