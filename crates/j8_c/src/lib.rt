// The C interface: what include/j8.h declares, each a call of the function of that name of j8, with its clauses.
#![tactic(auto)]

ghost use Rattle.std.specs.Prelude.{◌≡◌};
ghost use Rattle.j8.specs.Runs.{version, string_read, string_write, lines_write, sentence_write, json8_read, json8_show, json8_write, tsv8_read, upload_fresh, upload_feed, upload_finish};

use structs::results::J8Result;
use structs::sheets::J8Sheet;
use structs::tables::{J8Nodes, J8Shown};
use structs::uploads::{J8Fed, J8Upload};

#[unsafe(no_mangle)]
pub extern "C" fn j8_version() -> u32
    ensures { result ≡ version }
{
    j8::j8_version()
}

#[unsafe(no_mangle)]
pub extern "C" fn j8_string_read(text: &[u8], out: &mut [u8]) -> J8Result
    ensures answer { result ≡ (string_read text.now out.old).result }
    ensures stored { out.new ≡ (string_read text.now out.old).out }
{
    j8::j8_string_read(text, out)
}

#[unsafe(no_mangle)]
pub extern "C" fn j8_string_write(data: &[u8], out: &mut [u8]) -> J8Result
    ensures answer { result ≡ (string_write «data».now out.old).result }
    ensures stored { out.new ≡ (string_write «data».now out.old).out }
{
    j8::j8_string_write(data, out)
}

#[unsafe(no_mangle)]
pub extern "C" fn j8_lines_write(records: &[u8], out: &mut [u8]) -> J8Result
    ensures answer { result ≡ (lines_write records.now out.old).result }
    ensures stored { out.new ≡ (lines_write records.now out.old).out }
{
    j8::j8_lines_write(records, out)
}

#[unsafe(no_mangle)]
pub extern "C" fn j8_sentence(number: u32, out: &mut [u8]) -> J8Result
    ensures answer { result ≡ (sentence_write number out.old).result }
    ensures stored { out.new ≡ (sentence_write number out.old).out }
{
    j8::j8_sentence(number, out)
}

#[unsafe(no_mangle)]
pub extern "C" fn j8_json8_read(text: &[u8], table: &mut [u32], store: &mut [u8]) -> J8Nodes
    ensures answer { result ≡ (json8_read text.now table.old store.old).result }
    ensures nodes { table.new ≡ (json8_read text.now table.old store.old).table }
    ensures bytes { store.new ≡ (json8_read text.now table.old store.old).store }
{
    j8::tables::j8_json8_read(text, table, store)
}

#[unsafe(no_mangle)]
pub extern "C" fn j8_json8_show(table: &[u32], text: &[u8], store: &[u8], node: usize) -> J8Shown
    ensures { result ≡ json8_show table.now text.now store.now node }
{
    j8::tables::j8_json8_show(table, text, store, node)
}

#[unsafe(no_mangle)]
pub extern "C" fn j8_json8_write(
    table: &[u32],
    text: &[u8],
    store: &[u8],
    out: &mut [u8],
) -> J8Result
    ensures answer { result ≡ (json8_write table.now text.now store.now out.old).result }
    ensures stored { out.new ≡ (json8_write table.now text.now store.now out.old).out }
{
    j8::tables::j8_json8_write(table, text, store, out)
}

#[unsafe(no_mangle)]
pub extern "C" fn j8_tsv8_read(
    text: &[u8],
    names: &mut [u32],
    types: &mut [u32],
    cells: &mut [u32],
    store: &mut [u8],
) -> J8Sheet
    ensures answer { result ≡ (tsv8_read text.now names.old types.old cells.old store.old).result }
    ensures names { names.new ≡ (tsv8_read text.now names.old types.old cells.old store.old).names }
    ensures types { types.new ≡ (tsv8_read text.now names.old types.old cells.old store.old).types }
    ensures cells { cells.new ≡ (tsv8_read text.now names.old types.old cells.old store.old).cells }
    ensures bytes { store.new ≡ (tsv8_read text.now names.old types.old cells.old store.old).store }
{
    j8::sheets::j8_tsv8_read(text, names, types, cells, store)
}

#[unsafe(no_mangle)]
pub extern "C" fn j8_upload_fresh() -> J8Upload
    ensures { result ≡ upload_fresh }
{
    j8::uploads::j8_upload_fresh()
}

#[unsafe(no_mangle)]
pub extern "C" fn j8_upload_feed(
    upload: J8Upload,
    piece: &[u8],
    line: &mut [u8],
    out: &mut [u8],
) -> J8Fed
    ensures answer { result ≡ (upload_feed upload piece.now line.old out.old).fed }
    ensures held { line.new ≡ (upload_feed upload piece.now line.old out.old).line }
    ensures stored { out.new ≡ (upload_feed upload piece.now line.old out.old).out }
{
    j8::uploads::j8_upload_feed(upload, piece, line, out)
}

#[unsafe(no_mangle)]
pub extern "C" fn j8_upload_finish(upload: J8Upload, line: &[u8], out: &mut [u8]) -> J8Fed
    ensures answer { result ≡ (upload_finish upload line.now out.old).fed }
    ensures held { line.now ≡ (upload_finish upload line.now out.old).line }
    ensures stored { out.new ≡ (upload_finish upload line.now out.old).out }
{
    j8::uploads::j8_upload_finish(upload, line, out)
}
