// TSV8 logs: each cell under its row and the name of its column.
#![tactic(auto)]

ghost use Rattle.std.specs.Prelude.{◌≡◌, ◌+◌, ◌*◌, ◌/◌, ◌%◌, ◌≤◌, ◌<◌, length, get_or, take, drop};
ghost use Rattle.rooms.specs.inner.Puts.{room_max};
ghost use Rattle.tsv8.specs.Answers.{cells_after, store_after};
ghost use Rattle.tsv8_claims.specs.Claims.{shown};
ghost use Rattle.command_outputs.specs.Pages.{Added, AllPrinted};
ghost use Rattle.command_sheets.specs.Lines.{is_string};
ghost use Rattle.command_sheets.specs.Runs.{log_of, Listed};
ghost use Rattle.command_sheets.specs.inner.Tables.{cell_from, table_line};

use command_outputs::outcomes::Outcome;
use command_outputs::pages::Page;
use command_outputs::{outcomes, pages};
use prelude::slices;
use std::rt::Stdout;
use tsv8::read;

// Three numbers for each of 64 names, and one for each type: every log's find room.
const NAMES: usize = 192;

const TYPES: usize = 64;

fn number_in(table: &[u32], i: usize) -> usize
    requires { i < length table.now }
    ensures { result ≡ get_or table.now i 0 }
{
    table[i] as usize
}

// So many bytes from a place on, as far as the buffer has them.
fn part<'a>(buf: &'a [u8], place: usize, size: usize) -> &'a [u8]
    ensures { result.now ≡ take size (drop place buf.now) }
{
    let from = slices::least(place, buf.len());
    let n = slices::least(size, buf.len() - from);
    &buf[from..from + n]
}

// The bytes of the name or cell whose numbers stand from a place of its table on.
fn bytes_from<'a>(table: &[u32], at: usize, text: &'a [u8], store: &'a [u8]) -> &'a [u8]
    requires { at + 3 ≤ length table.now }
    ensures { result.now ≡ shown text.now store.now (cell_from table.now at) }
{
    let kind = number_in(table, at);
    let place = number_in(table, at + 1);
    let size = number_in(table, at + 2);
    if kind == 6 {
        return part(store, place, size);
    }
    part(text, place, size)
}

fn is_string(table: &[u32], at: usize) -> bool
    requires { at + 3 ≤ length table.now }
    ensures { result ≡ is_string (cell_from table.now at) }
{
    4 < number_in(table, at)
}

// The row of cell k, from 1.
fn row_of(k: usize, columns: usize) -> usize
    requires { (0 < columns) × (k ≤ room_max) }
    ensures { result ≡ k / columns + 1 }
{
    k / columns + 1
}

// Its column, from 0.
fn column_of(k: usize, columns: usize) -> usize
    requires { 0 < columns }
    ensures { (result ≡ k % columns) × (result < columns) }
{
    k % columns
}

// The line of cell k.
fn list_cell<'a>(
    output: Stdout,
    p: Page,
    k: usize,
    columns: usize,
    text: &'a [u8],
    names: &[u32],
    cells: &[u32],
    store: &'a [u8],
    page: &mut [u8],
    shown: &mut [u8],
) -> Page
    requires { (0 < columns) × (3 * columns ≤ length names.now) × (3 * k + 3 ≤ length cells.now) }
    ensures { Added p (table_line columns text.now names.now cells.now store.now k) page.old shown.old result page.new shown.new }
{
    let row = row_of(k, columns);
    let column = column_of(k, columns);
    let name = bytes_from(names, 3 * column, text, store);
    let value = bytes_from(cells, 3 * k, text, store);
    let quoted = is_string(cells, 3 * k);
    pages::add_cell(output, p, row, name, quoted, value, page, shown)
}

// The lines of so many cells.
fn list_cells<'a>(
    output: Stdout,
    count: usize,
    columns: usize,
    text: &'a [u8],
    terminal: bool,
    names: &[u32],
    cells: &[u32],
    store: &'a [u8],
    page: &mut [u8],
    shown: &mut [u8],
) -> Outcome
    requires { (0 < columns) × (3 * columns ≤ length names.now) × (3 * count ≤ length cells.now) }
    ensures { AllPrinted (table_line columns text.now names.now cells.now store.now) count terminal page.old shown.old result page.new shown.new }
{
    let mut p = pages::fresh(terminal);
    for k in 0..count {
        p = list_cell(
            output, p, k, columns, text, names, cells, store, page, shown,
        );
    }
    pages::outcome_of(pages::flush(output, p, page, shown))
}

// Prints each cell of a log, row by row.
pub fn list(
    output: Stdout,
    text: &[u8],
    terminal: bool,
    table: &mut [u32],
    store: &mut [u8],
    page: &mut [u8],
    shown: &mut [u8],
) -> Outcome
    ensures listed { Listed text.now (log_of table.old store.old text.now) terminal page.old shown.old result page.new shown.new }
    ensures cells { table.new ≡ cells_after (log_of table.old store.old text.now) table.old }
    ensures bytes { store.new ≡ store_after (log_of table.old store.old text.now) store.old }
{
    let mut names = [0u32; NAMES];
    let mut types = [0u32; TYPES];
    match read::read(text, &mut names, &mut types, table, store) {
        Ok(sheet) => list_cells(
            output,
            sheet.cells,
            sheet.columns,
            text,
            terminal,
            &names,
            table,
            store,
            page,
            shown,
        ),
        Err(f) => outcomes::refused_at(text, f.refusal.number(), f.place),
    }
}
