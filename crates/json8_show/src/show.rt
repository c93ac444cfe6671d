// Showing a string of a table, whatever its numbers are.
ghost use Rattle.std.specs.Prelude.{◌≡◌, ◌+◌, leb, length};
ghost use Rattle.json8_show.specs.Show.{shown_by, shown_at, shown_bytes, unshown};

// Where a string's bytes stand: a place and a length in the text or in the store.
#[derive(Clone, Copy)]
pub enum Shown {
    InText(usize, usize),
    InStore(usize, usize),
}

// Whether so many bytes from a place on lie in a buffer of so many. No sum is made, so none can run over.
pub fn is_within(place: usize, size: usize, room: usize) -> bool
    ensures { result ≡ leb (place + size) room }
{
    if room < place {
        return false;
    }
    size <= room - place
}

// A node's string, by its kind, if it is one and lies in its buffer.
fn shown_by(kind: u32, place: usize, size: usize, text: usize, store: usize) -> Option<Shown>
    ensures { result ≡ shown_by kind place size text store }
{
    if kind == 5 {
        if is_within(place, size, text) {
            return Some(Shown::InText(place, size));
        }
        return None;
    }
    if kind == 6 {
        if is_within(place, size, store) {
            return Some(Shown::InStore(place, size));
        }
        return None;
    }
    None
}

// Where the string of a node stands, in a text and a store of so many bytes, if it is shown.
pub fn shown_at(table: &[u32], text: usize, store: usize, node: usize) -> Option<Shown>
    ensures { result ≡ shown_at table.now text store node }
{
    if table.len() / 4 <= node {
        return None;
    }
    let at = 4 * node;
    let place = table[at + 2] as usize;
    let size = table[at + 3] as usize;
    shown_by(table[at], place, size, text, store)
}

// The bytes of a node's string, a part of the text for kind 5 and of the store for kind 6; or the text's empty beginning.
pub fn show<'a>(table: &[u32], text: &'a [u8], store: &'a [u8], node: usize) -> &'a [u8]
    ensures { result.now ≡ shown_bytes text.now store.now (shown_at table.now (length text.now) (length store.now) node) }
{
    match shown_at(table, text.len(), store.len(), node) {
        Some(Shown::InText(place, size)) => &text[place..place + size],
        Some(Shown::InStore(place, size)) => &store[place..place + size],
        None => &text[..0],
    }
}

// Whether a node shows the text's empty beginning because it is outside the table, no string, or has a range outside its buffer: 1, and 0 else.
pub fn unshown(table: &[u32], text: &[u8], store: &[u8], node: usize) -> u32
    ensures { result ≡ unshown (shown_at table.now (length text.now) (length store.now) node) }
{
    match shown_at(table, text.len(), store.len(), node) {
        Some(_) => 0,
        None => 1,
    }
}
