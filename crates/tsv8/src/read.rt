// Reading a whole text.
ghost use Rattle.std.specs.Prelude.{◌≡◌, ◌/◌};
ghost use Rattle.tsv8.specs.Answers.{rooms_of, has_room, read_text, sheet_of, names_after, types_after, cells_after, store_after};
ghost use Rattle.tsv8.specs.inner.Heads.{AllStrs};

use crate::answers::Sheet;
use crate::{heads, stores};
use prelude::limits::{COLUMN_MAX, TEXT_MAX};
use prelude::refusals::{Refusal, Refused};
use tsv8_cells::columns::ColumnType;
use utf8::classes::Classes;

// The types of columns that are all Str.
fn strs() -> [ColumnType; COLUMN_MAX]
    ensures { AllStrs result }
{
    [ColumnType::Str; COLUMN_MAX]
}

// Whether so many columns, cells and bytes have room in parts of these lengths.
fn has_room(
    n: usize,
    cells: usize,
    stored: usize,
    names: usize,
    types: usize,
    table: usize,
    store: usize,
) -> bool
    ensures { result ≡ has_room (record { names = names / 3; types = types; cells = table / 3; store = store }) n cells stored }
{
    if names / 3 < n {
        return false;
    }
    if types < n {
        return false;
    }
    if table / 3 < cells {
        return false;
    }
    stored <= store
}

// Reads a TSV8 text: its names, types and cells in front of their tables and the bytes of strings with escapes in front of the store, or a
// refusal and all as they were.
pub fn read(
    text: &[u8],
    names: &mut [u32],
    types: &mut [u32],
    cells: &mut [u32],
    store: &mut [u8],
) -> Result<Sheet, Refused>
    ensures answer { result ≡ sheet_of (read_text (rooms_of names.old types.old cells.old store.old) text.now) }
    ensures names { names.new ≡ names_after (read_text (rooms_of names.old types.old cells.old store.old) text.now) names.old }
    ensures types { types.new ≡ types_after (read_text (rooms_of names.old types.old cells.old store.old) text.now) types.old }
    ensures cells { cells.new ≡ cells_after (read_text (rooms_of names.old types.old cells.old store.old) text.now) cells.old }
    ensures store { store.new ≡ store_after (read_text (rooms_of names.old types.old cells.old store.old) text.now) store.old }
{
    if TEXT_MAX < text.len() {
        return Err(Refusal::TooLong.at(0));
    }
    let t = Classes::new();
    let mut kinds = strs();
    let outline = heads::judge(&t, text, &mut kinds)?;
    let n = outline.columns;
    if !has_room(
        n,
        outline.cells,
        outline.stored,
        names.len(),
        types.len(),
        cells.len(),
        store.len(),
    ) {
        return Err(Refusal::NoRoom.at(0));
    }
    stores::put_types(n, &kinds, types);
    let first = strs();
    let moved = stores::put_row(&t, text, outline.names, n, &first, 0, 0, names, store);
    stores::put_lines(&t, text, outline.rest, n, &kinds, moved.count, cells, store);
    Ok(Sheet {
        columns: n,
        cells: outline.cells,
        stored: outline.stored,
    })
}
