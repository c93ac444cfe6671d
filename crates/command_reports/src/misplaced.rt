// Refusal 13 in words: what stands at a place where it can't, and what could. The reader itself is asked: a byte is put at the place, behind the
// text before it, and could stand there if it isn't refused with 13 too.
use json8::answers::Parsed;
use json8_read::read;
use prelude::refusals::{Refusal, Refused};
use prelude::slices;
use tokens::words;
use utf8::chars;
use utf8::classes::Classes;

// More of a word isn't told.
const WORD_MAX: usize = 64;

// Whether an answer isn't that nothing so begins at the place.
fn is_let(parsed: Result<Parsed, Refused>, place: usize) -> bool {
    match parsed {
        Ok(_) => true,
        Err(f) => f != Refusal::Misplaced.at(place),
    }
}

// Whether what a byte begins could stand at a place; the byte stays there.
fn could(x: u8, place: usize, text: &mut [u8], table: &mut [u32], store: &mut [u8]) -> bool {
    if text.len() <= place {
        return false;
    }
    text[place] = x;
    let n = command_texts::within(place + 1, text);
    is_let(read::read(&text[..n], table, store), place)
}

// What could stand there, behind another thing that could.
fn put_or(first: usize, at: usize, said: &mut [u8]) -> usize {
    if first == at {
        return at;
    }
    command_texts::put(b" or ", at, said)
}

// The k-th thing, if it could stand there. Each byte begins it and goes on no word or number before it. A quote begins a key, and a value too.
fn put_choice(
    k: usize,
    place: usize,
    first: usize,
    at: usize,
    text: &mut [u8],
    table: &mut [u32],
    store: &mut [u8],
    said: &mut [u8],
) -> usize {
    if k == 1 && first < at {
        return at;
    }
    let x = slices::byte_at(b"[\",:]}", 0, k);
    if !could(x, place, text, table, store) {
        return at;
    }
    let e = put_or(first, at, said);
    command_texts::put_line(
        b"\
a value
a key
a comma
a colon
a closing bracket
a closing bracket
",
        k,
        e,
        said,
    )
}

fn put_choices(
    place: usize,
    first: usize,
    text: &mut [u8],
    table: &mut [u32],
    store: &mut [u8],
    said: &mut [u8],
) -> usize {
    let mut at = first;
    for k in 0..6 {
        at = put_choice(k, place, first, at, text, table, store, said);
    }
    at
}

// The bytes of what stands at a place: a word, a character, or a byte that is part of none.
fn size_at(text: &[u8], place: usize) -> usize {
    if text.len() < place {
        return 0;
    }
    let n = words::word_len(text, place);
    if n > 0 {
        return slices::least(n, WORD_MAX);
    }
    chars::char_at(&Classes::new(), text, place).unwrap_or(1)
}

// What stands at a place, quoted.
fn put_there(text: &[u8], place: usize, at: usize, line: &mut [u8], said: &mut [u8]) -> usize {
    let from = command_texts::within(place, text);
    let rest = &text[from..];
    let n = command_texts::within(size_at(text, place), rest);
    command_texts::put_quoted(&rest[..n], at, line, said)
}

// The sentence of the number, and what stands there.
fn put_wrong(text: &[u8], place: usize, line: &mut [u8], said: &mut [u8]) -> usize {
    let a = command_texts::put_sentence(Refusal::Misplaced.number(), 0, said);
    let b = command_texts::put(b": ", a, said);
    put_there(text, place, b, line, said)
}

// The sentence, with what could stand at the place of a text of that size. The byte there is lost.
pub(crate) fn put(
    place: usize,
    size: usize,
    text: &mut [u8],
    table: &mut [u32],
    store: &mut [u8],
    said: &mut [u8],
    line: &mut [u8],
) -> usize {
    let n = command_texts::within(size, text);
    let a = put_wrong(&text[..n], place, line, said);
    let b = command_texts::put(b" stands where ", a, said);
    let c = put_choices(place, b, text, table, store, said);
    command_texts::put(b" could", c, said)
}
