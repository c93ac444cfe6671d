// JSON8 through the C interface: a text read to a node table, a string of a table shown, and a table written.
ghost use Rattle.std.specs.Prelude.{◌≡◌};
ghost use Rattle.j8.specs.Runs.{json8_read, json8_show, json8_write};

use json8_show::show;
use structs::results::J8Result;
use structs::tables::{J8Nodes, J8Shown};
use structs::{results, tables};

pub fn j8_json8_read(text: &[u8], table: &mut [u32], store: &mut [u8]) -> J8Nodes
    ensures answer { result ≡ (json8_read text.now table.old store.old).result }
    ensures nodes { table.new ≡ (json8_read text.now table.old store.old).table }
    ensures bytes { store.new ≡ (json8_read text.now table.old store.old).store }
{
    tables::of_parsed(json8_read::read::read(text, table, store))
}

pub fn j8_json8_show(table: &[u32], text: &[u8], store: &[u8], node: usize) -> J8Shown
    ensures { result ≡ json8_show table.now text.now store.now node }
{
    tables::of_shown(show::shown_at(table, text.len(), store.len(), node))
}

pub fn j8_json8_write(table: &[u32], text: &[u8], store: &[u8], out: &mut [u8]) -> J8Result
    ensures answer { result ≡ (json8_write table.now text.now store.now out.old).result }
    ensures stored { out.new ≡ (json8_write table.now text.now store.now out.old).out }
{
    results::of_written(json8_write::write::write(table, text, store, out))
}
