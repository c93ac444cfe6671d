// Calls on JSON8 texts and node tables.
ghost use Rattle.std.specs.Prelude.{◌≡◌, length};

use crate::{fields, numbers, show, texts};
use json8::answers::Parsed;
use prelude::refusals::Refused;

// The numbers of a node.
const NODE: usize = 4;

// A table before a call.
pub fn filled() -> [u32; fields::TABLE_MAX]
    ensures { 4112 ≡ length result }
{
    [numbers::FILL; fields::TABLE_MAX]
}

fn print_parsed(answer: Result<Parsed, Refused>) {
    match answer {
        Ok(p) => show::four(0, 0, p.nodes, p.stored),
        Err(f) => show::four(f.refusal.number() as usize, f.place, 0, 0),
    }
}

fn read_in(text: &[u8], table: &mut [u32], store: &mut [u8]) {
    print_parsed(json8_read::read::read(text, table, store));
    numbers::print(table, NODE);
    show::bytes(store);
}

fn read_store(text: &[u8], table: &mut [u32], bytes: usize) {
    let mut store = texts::filled(0xaa);
    let n = fields::within(bytes, &store);
    read_in(text, table, &mut store[..n]);
}

fn read_table(text: &[u8], numbers: usize, bytes: usize) {
    let mut table = filled();
    let n = fields::within_table(numbers, &table);
    read_store(text, &mut table[..n], bytes);
}

fn read_text(text: &[u8], row: &[u8]) {
    let numbers = fields::number(fields::field(row, 2));
    let bytes = fields::last(row, 3);
    if numbers > fields::TABLE_MAX || bytes > fields::ROOM_MAX {
        return show::wrong();
    }
    read_table(text, numbers, bytes);
}

// A row of the fields text, room in numbers, and room in the store. Prints number, place, nodes and bytes, the table and the store.
pub fn read(row: &[u8]) {
    let mut text = texts::filled(0);
    let n = fields::bytes(fields::field(row, 1), &mut text);
    if n > fields::ROOM_MAX {
        return show::wrong();
    }
    let n = fields::within(n, &text);
    read_text(&text[..n], row);
}

// Prints whether the node shows nothing, and the bytes.
fn show_in<'a>(table: &[u32], text: &'a [u8], store: &'a [u8], node: usize) {
    show::number(json8_show::show::unshown(table, text, store, node) as usize);
    show::bytes(json8_show::show::show(table, text, store, node));
}

fn print_fit(fit: bool) {
    if fit {
        return show::marked(b',', 1);
    }
    show::marked(b',', 0);
}

fn ask_fit(table: &[u32], text: &[u8], store: &[u8]) {
    print_fit(json8_fit::fitness::fit(table, text, store));
}

// Prints number, place and length, whether the table is fit, and the buffer.
fn write_in(table: &[u32], text: &[u8], store: &[u8], out: &mut [u8]) {
    texts::print_written(json8_write::write::write(table, text, store, out));
    ask_fit(table, text, store);
    show::bytes(out);
}

fn write_to(table: &[u32], text: &[u8], store: &[u8], room: usize) {
    let mut out = texts::filled(0xaa);
    let n = fields::within(room, &out);
    write_in(table, text, store, &mut out[..n]);
}

fn answer<'a>(writes: bool, table: &[u32], text: &'a [u8], store: &'a [u8], number: usize) {
    if !writes {
        return show_in(table, text, store, number);
    }
    if number > fields::ROOM_MAX {
        return show::wrong();
    }
    write_to(table, text, store, number);
}

fn run_store(writes: bool, table: &[u32], text: &[u8], row: &[u8]) {
    let mut store = texts::filled(0);
    let n = fields::bytes(fields::field(row, 3), &mut store);
    let number = fields::last(row, 4);
    if n > fields::ROOM_MAX || number == fields::WRONG {
        return show::wrong();
    }
    let n = fields::within(n, &store);
    answer(writes, table, text, &store[..n], number);
}

fn run_text(writes: bool, table: &[u32], row: &[u8]) {
    let mut text = texts::filled(0);
    let n = fields::bytes(fields::field(row, 2), &mut text);
    if n > fields::ROOM_MAX {
        return show::wrong();
    }
    let n = fields::within(n, &text);
    run_store(writes, table, &text[..n], row);
}

// A row of the fields table, text, store, and the room for writing or the node to show.
pub fn run(writes: bool, row: &[u8]) {
    let mut table = filled();
    let n = fields::table(fields::field(row, 1), &mut table);
    if n > fields::TABLE_MAX {
        return show::wrong();
    }
    let n = fields::within_table(n, &table);
    run_text(writes, &table[..n], row);
}
