// Lines judged: cells counted, and the bytes that they take of the store.
ghost use Rattle.std.specs.Prelude.{Bool, false, List, ◌≡◌, ℕ, ◌+◌, ◌≤◌, ◌<◌, length, get_or, take};
ghost use Rattle.prelude.specs.Limits.{text_max, column_max};
ghost use Rattle.tsv8_cells.specs.declared.columns.ColumnType.{ColumnType};
ghost use Rattle.tsv8.specs.Lines.{read_lines};
ghost use Rattle.tsv8_cells.specs.inner.Runs.{Starts, cells_at, lines_from, line_end};
ghost use Rattle.tsv8.specs.inner.Rows.{row_read, refused_row, RowTold, LineTold, LinesTold};

use prelude::limits::COLUMN_MAX;
use prelude::refusals::{Refusal, Refused};
use prelude::slices;
use tokens::words;
use tsv8_cells::columns::ColumnType;
use tsv8_cells::{cells, ends};
use utf8::classes::Classes;

// A row's end, and the store's bytes so far.
#[derive(Clone, Copy)]
pub(crate) struct Row {
    pub end: usize,
    pub stored: usize,
}

// A line that gives no cells, with its end; or a row.
#[derive(Clone, Copy)]
pub(crate) enum Line {
    Skipped(usize),
    Read(Row),
}

// All lines: their cells, and the store's bytes.
#[derive(Clone, Copy)]
pub(crate) struct Counted {
    pub cells: usize,
    pub stored: usize,
}

// A cell's refusal, in a line that begins at p and whose first tab is at q: a wrong number of cells comes first.
fn refuse(text: &[u8], p: usize, q: usize, n: usize, refused: Refused) -> Refused
    requires { (q ≤ length text.now) × Starts text.now q }
    ensures { result ≡ refused_row (length (cells_at text.now q)) n p refused }
{
    if ends::tabs(text, q) != n {
        return Refusal::BadLine.at(p);
    }
    refused
}

// One cell for each column, from a line's first tab on, behind m bytes of the store; the line begins at p.
pub(crate) fn judge_row(
    t: &Classes,
    text: &[u8],
    p: usize,
    from: usize,
    n: usize,
    types: &[ColumnType; COLUMN_MAX],
    m: usize,
) -> Result<Row, Refused>
    requires { (length text.now ≤ text_max) × (from ≤ length text.now) × (n ≤ column_max) × (m ≤ from) × Starts text.now from × (n ≤ length types.now) }
    ensures { RowTold (row_read (take n types.now) m p (cells_at text.now from)) (line_end text.now from) from n m result }
{
    let mut q = from;
    let mut j = m;
    for k in 0..n {
        if slices::byte_at(text, q, 0) != b'\t' {
            return Err(Refusal::BadLine.at(p));
        }
        let ended = cells::read(t, text, q + 1, types[k], j);
        match ended.cell {
            Ok(cell) => {
                j += cells::stored_by(cell.kind, cell.size);
            }
            Err(refused) => {
                return Err(refuse(text, p, from, n, refused));
            }
        }
        q = ended.end;
    }
    if slices::byte_at(text, q, 0) == b'\t' {
        return Err(Refusal::BadLine.at(p));
    }
    Ok(Row { end: q, stored: j })
}

// A line that begins with `!`, behind data or not.
fn note(text: &[u8], at: usize, behind: bool, n: usize) -> Result<Line, Refused>
    requires { (at < length text.now) × (get_or text.now at 0 ≡ 0x21) }
    ensures { (ts : List ColumnType) (m : ℕ) → length ts ≡ n → LineTold text.now behind ts m at n result }
{
    let q = ends::end_from(text, at);
    if ends::tabs(text, q) != n {
        return Err(Refusal::BadLine.at(at));
    }
    if behind {
        return Err(Refusal::BadLine.at(at));
    }
    let mark = [b'!', b't', b'y', b'p', b'e'];
    if words::same(&text[at..q], &mark) {
        return Err(Refusal::BadHeader.at(at));
    }
    Ok(Line::Skipped(line_ends::lf_from(text, q)))
}

// A line that begins with neither a tab nor `!`.
fn gap_line(text: &[u8], at: usize) -> Result<Line, Refused>
    requires { (at < length text.now) × (get_or text.now at 0 ≡ 9 → ⊥) × (get_or text.now at 0 ≡ 0x21 → ⊥) }
    ensures { (behind : Bool) (ts : List ColumnType) (m n : ℕ) → LineTold text.now behind ts m at n result }
{
    let e = ends::gap(text, at);
    if ends::is_end(text, e) {
        return Ok(Line::Skipped(e));
    }
    Err(Refusal::BadLine.at(at))
}

// A line after the first.
fn judge_line(
    t: &Classes,
    text: &[u8],
    at: usize,
    behind: bool,
    n: usize,
    types: &[ColumnType; COLUMN_MAX],
    m: usize,
) -> Result<Line, Refused>
    requires { (length text.now ≤ text_max) × (at < length text.now) × (n ≤ column_max) × (m ≤ at) × (n ≤ length types.now) }
    ensures { LineTold text.now behind (take n types.now) m at n result }
{
    let x = text[at];
    if x == b'\t' {
        let row = judge_row(t, text, at, at, n, types, m)?;
        return Ok(Line::Read(row));
    }
    if x == b'!' {
        return note(text, at, behind, n);
    }
    gap_line(text, at)
}

// The lines from a place on, behind m bytes of the store.
pub(crate) fn judge_lines(
    t: &Classes,
    text: &[u8],
    from: usize,
    n: usize,
    types: &[ColumnType; COLUMN_MAX],
    m: usize,
) -> Result<Counted, Refused>
    requires { (length text.now ≤ text_max) × (from ≤ length text.now + 1) × (0 < n) × (n ≤ column_max) × (m ≤ from) × (n ≤ length types.now) }
    ensures { LinesTold (length text.now) (read_lines false (take n types.now) m (lines_from text.now from)) m result }
{
    let mut at = from;
    let mut count: usize = 0;
    let mut stored = m;
    // By while: a turn goes on by as much as what stands there takes.
    while at < text.len() {
        let line = judge_line(t, text, at, 0 < count, n, types, stored)?;
        match line {
            Line::Skipped(e) => {
                at = e + 1;
            }
            Line::Read(row) => {
                at = row.end + 1;
                count += n;
                stored = row.stored;
            }
        }
    }
    Ok(Counted {
        cells: count,
        stored,
    })
}
