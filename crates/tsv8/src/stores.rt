// What a text without a fault holds, stored.
ghost use Rattle.std.specs.Prelude.{[], ◌∷◌, map, false, ◌≡◌, ◌+◌, ◌*◌, ◌≤◌, ◌<◌, length, take, drop};
ghost use Rattle.std.proofs.lemmas.List.Edits.{sets};
ghost use Rattle.prelude.specs.Limits.{text_max, column_max};
ghost use Rattle.strings.specs.Read.{read_token};
ghost use Rattle.string_tokens.specs.inner.Quotes.{denoted};
ghost use Rattle.lines.specs.Line.{strip};
ghost use Rattle.tsv8_cells.specs.Types.{type_number};
ghost use Rattle.tsv8_cells.specs.Cells.{cells_of};
ghost use Rattle.tsv8.specs.Lines.{read_lines};
ghost use Rattle.tsv8.specs.Answers.{flat};
ghost use Rattle.tsv8_cells.specs.inner.Runs.{cell_run, Starts, line_end, cells_at, lines_from};
ghost use Rattle.tsv8.specs.inner.Stored.{cells_in, bytes_in, cell_here, Fits};

use lines::strip;
use prelude::limits::COLUMN_MAX;
use string_tokens::fill;
use tsv8_cells::columns::ColumnType;
use tsv8_cells::{cells, ends};
use utf8::classes::Classes;

// A line's end, and the store's bytes so far.
#[derive(Clone, Copy)]
pub(crate) struct Moved {
    pub end: usize,
    pub count: usize,
}

fn narrow(x: usize) -> u32
    requires { x ≤ text_max + 1 }
    ensures { result ≡ x }
{
    x as u32
}

// Stores the i-th three numbers.
fn put_three(i: usize, kind: u32, place: usize, size: usize, table: &mut [u32])
    requires { (3 * i + 3 ≤ length table.old) × (place ≤ text_max + 1) × (size ≤ text_max + 1) }
    ensures { table.new ≡ sets table.old (3 * i) (kind ∷ place ∷ size ∷ []) }
{
    table[3 * i] = kind;
    table[3 * i + 1] = narrow(place);
    table[3 * i + 2] = narrow(size);
}

// Stores what a cell denotes that is a string with an escape.
fn put_bytes(t: &Classes, c: &[u8], out: &mut [u8])
    requires { length out.old ≡ length (denoted (read_token (strip c.now))) }
    ensures { out.new ≡ denoted (read_token (strip c.now)) }
{
    let a = strip::lead(c);
    let n = strip::trim(&c[a..]);
    fill::fill(t, &c[a..a + n], out);
}

// The cell from a place on as the i-th, behind m bytes of the store.
fn put_cell(
    t: &Classes,
    text: &[u8],
    q: usize,
    ty: ColumnType,
    i: usize,
    m: usize,
    table: &mut [u32],
    store: &mut [u8],
) -> Moved
    requires { (length text.now ≤ text_max) × (q ≤ length text.now) × (m ≤ text_max + 1) × (3 * i + 3 ≤ length table.old) × (m + length (bytes_in (cell_here text.now ty m q)) ≤ length store.old) }
    ensures end { result.end ≡ q + cell_run (drop q text.now) }
    ensures count { result.count ≡ m + length (bytes_in (cell_here text.now ty m q)) }
    ensures cells { table.new ≡ sets table.old (3 * i) (flat (cells_in (cell_here text.now ty m q))) }
    ensures bytes { store.new ≡ sets store.old m (bytes_in (cell_here text.now ty m q)) }
{
    let ended = cells::read(t, text, q, ty, m);
    let e = ended.end;
    let Ok(cell) = ended.cell else {
        return Moved { end: e, count: m };
    };
    put_three(i, cell.kind, cell.place, cell.size, table);
    if cell.kind == 6 {
        put_bytes(t, &text[q..e], &mut store[m..m + cell.size]);
        return Moved {
            end: e,
            count: m + cell.size,
        };
    }
    Moved { end: e, count: m }
}

// The cells of a line from its first tab on, behind i cells and m bytes of the store.
pub(crate) fn put_row(
    t: &Classes,
    text: &[u8],
    from: usize,
    n: usize,
    types: &[ColumnType; COLUMN_MAX],
    i: usize,
    m: usize,
    table: &mut [u32],
    store: &mut [u8],
) -> Moved
    requires { (length text.now ≤ text_max) × (from ≤ length text.now) × Starts text.now from × (n ≤ column_max) × (n ≤ length types.now) × (length (cells_at text.now from) ≡ n) × Fits (cells_of (take n types.now) m (cells_at text.now from)) i m table.old store.old }
    ensures end { result.end ≡ line_end text.now from }
    ensures count { result.count ≡ m + length (bytes_in (cells_of (take n types.now) m (cells_at text.now from))) }
    ensures cells { table.new ≡ sets table.old (3 * i) (flat (cells_in (cells_of (take n types.now) m (cells_at text.now from)))) }
    ensures bytes { store.new ≡ sets store.old m (bytes_in (cells_of (take n types.now) m (cells_at text.now from))) }
{
    let mut q = from;
    let mut j = m;
    for k in 0..n {
        let moved = put_cell(t, text, q + 1, types[k], i + k, j, table, store);
        q = moved.end;
        j = moved.count;
    }
    Moved { end: q, count: j }
}

// The cells of the lines from a place on, behind m bytes of the store.
pub(crate) fn put_lines(
    t: &Classes,
    text: &[u8],
    from: usize,
    n: usize,
    types: &[ColumnType; COLUMN_MAX],
    m: usize,
    table: &mut [u32],
    store: &mut [u8],
)
    requires { (length text.now ≤ text_max) × (from ≤ length text.now + 1) × (n ≤ column_max) × (n ≤ length types.now) × Fits (read_lines false (take n types.now) m (lines_from text.now from)) 0 m table.old store.old }
    ensures cells { table.new ≡ sets table.old 0 (flat (cells_in (read_lines false (take n types.now) m (lines_from text.now from)))) }
    ensures bytes { store.new ≡ sets store.old m (bytes_in (read_lines false (take n types.now) m (lines_from text.now from))) }
{
    let mut at = from;
    let mut i: usize = 0;
    let mut j = m;
    // By while: a turn goes on by as much as what stands there takes.
    while at < text.len() {
        if text[at] != b'\t' {
            at = line_ends::lf_from(text, at) + 1;
            continue;
        }
        let moved = put_row(t, text, at, n, types, i, j, table, store);
        at = moved.end + 1;
        j = moved.count;
        i += n;
    }
}

// The numbers of n types.
pub(crate) fn put_types(n: usize, types: &[ColumnType; COLUMN_MAX], out: &mut [u32])
    requires { (n ≤ column_max) × (n ≤ length types.now) × (n ≤ length out.old) }
    ensures { out.new ≡ sets out.old 0 (map type_number (take n types.now)) }
{
    for k in 0..n {
        out[k] = types[k].number();
    }
}
