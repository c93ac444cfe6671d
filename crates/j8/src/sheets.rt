// TSV8 through the C interface: a text read to names, types and cells.
ghost use Rattle.std.specs.Prelude.{◌≡◌};
ghost use Rattle.j8.specs.Runs.{tsv8_read};

use structs::sheets;
use structs::sheets::J8Sheet;

pub fn j8_tsv8_read(
    text: &[u8],
    names: &mut [u32],
    types: &mut [u32],
    cells: &mut [u32],
    store: &mut [u8],
) -> J8Sheet
    ensures answer { result ≡ (tsv8_read text.now names.old types.old cells.old store.old).result }
    ensures names { names.new ≡ (tsv8_read text.now names.old types.old cells.old store.old).names }
    ensures types { types.new ≡ (tsv8_read text.now names.old types.old cells.old store.old).types }
    ensures cells { cells.new ≡ (tsv8_read text.now names.old types.old cells.old store.old).cells }
    ensures bytes { store.new ≡ (tsv8_read text.now names.old types.old cells.old store.old).store }
{
    sheets::of_sheet(tsv8::read::read(text, names, types, cells, store))
}
