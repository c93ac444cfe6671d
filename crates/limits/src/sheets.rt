// Calls on TSV8 texts.
ghost use Rattle.std.specs.Prelude.{◌≡◌, length};

use crate::{fields, numbers, show, tables, texts};
use prelude::refusals::Refused;
use tsv8::answers::Sheet;

// The numbers of a name or cell.
const CELL: usize = 3;

// Some more than the cells of any text need.
const CELLS_MAX: usize = 48552;

#[derive(Clone, Copy)]
struct Rooms {
    names: usize,
    types: usize,
    cells: usize,
    store: usize,
}

// Cells before a call.
fn filled() -> [u32; CELLS_MAX]
    ensures { 48552 ≡ length result }
{
    [numbers::FILL; CELLS_MAX]
}

fn print_sheet(answer: Result<Sheet, Refused>) {
    match answer {
        Ok(s) => show::five(0, 0, s.columns, s.cells, s.stored),
        Err(f) => show::five(f.refusal.number() as usize, f.place, 0, 0, 0),
    }
}

// An empty part is `-`, so that each stands at its place.
fn print_part(table: &[u32], width: usize) {
    if table.len() == 0 {
        return show::print(b" -");
    }
    numbers::print(table, width);
}

fn read_in(text: &[u8], names: &mut [u32], types: &mut [u32], cells: &mut [u32], store: &mut [u8]) {
    print_sheet(tsv8::read::read(text, names, types, cells, store));
    print_part(names, CELL);
    print_part(types, 1);
    print_part(cells, CELL);
    show::bytes(store);
}

fn read_store(text: &[u8], names: &mut [u32], types: &mut [u32], cells: &mut [u32], room: usize) {
    let mut store = texts::filled(0xaa);
    let n = fields::within(room, &store);
    read_in(text, names, types, cells, &mut store[..n]);
}

fn read_cells(text: &[u8], names: &mut [u32], types: &mut [u32], rooms: Rooms) {
    let mut cells = filled();
    let n = fields::within_table(rooms.cells, &cells);
    read_store(text, names, types, &mut cells[..n], rooms.store);
}

fn read_types(text: &[u8], names: &mut [u32], rooms: Rooms) {
    let mut types = tables::filled();
    let n = fields::within_table(rooms.types, &types);
    read_cells(text, names, &mut types[..n], rooms);
}

fn read_names(text: &[u8], rooms: Rooms) {
    let mut names = tables::filled();
    let n = fields::within_table(rooms.names, &names);
    read_types(text, &mut names[..n], rooms);
}

// A room that no buffer here has is cut, and then the answer isn't the reference's.
fn rooms_of(row: &[u8]) -> Rooms {
    Rooms {
        names: fields::number(fields::field(row, 2)),
        types: fields::number(fields::field(row, 3)),
        cells: fields::number(fields::field(row, 4)),
        store: fields::last(row, 5),
    }
}

// A row of the fields text, rooms for names, types and cells in numbers, and room in the store. Prints number, place, columns, cells and bytes,
// and the four parts.
pub fn read(row: &[u8]) {
    let mut text = texts::filled(0);
    let n = fields::bytes(fields::field(row, 1), &mut text);
    if n > fields::ROOM_MAX {
        return show::wrong();
    }
    let n = fields::within(n, &text);
    read_names(&text[..n], rooms_of(row));
}
