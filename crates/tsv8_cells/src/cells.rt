// One cell: stripped, read as a line of J8 Lines is, and held to its column's type.
ghost use Rattle.std.specs.Prelude.{true, ◌≡◌, ℕ, ◌+◌, ◌-◌, ◌≤◌, ◌<◌, length, take, drop};
ghost use Rattle.notation.specs.Marks.{unopened, opening};
ghost use Rattle.prelude.specs.Limits.{text_max};
ghost use Rattle.string_tokens.specs.inner.Quotes.{Plains};
ghost use Rattle.lines.specs.Line.{strip, read_stripped};
ghost use Rattle.tsv8_cells.specs.Parts.{part};
ghost use Rattle.tsv8_cells.specs.Types.{strs, all_digits, is_int};
ghost use Rattle.tsv8_cells.specs.Cells.{cell_by, cell_at};
ghost use Rattle.tsv8_cells.specs.inner.Texts.{IsText, AllPlain};
ghost use Rattle.tsv8_cells.specs.inner.Typed.{bool_kind, typed_kind};
ghost use Rattle.tsv8_cells.specs.inner.Told.{CellTold, stored_by};
ghost use Rattle.tsv8_cells.specs.inner.Simple.{Found};

use crate::columns::ColumnType;
use crate::{ends, simple};
use lines::{bare, strip};
use notation::marks;
use prelude::refusals::{Refusal, Refused};
use string_tokens::answers::Quoted;
use string_tokens::quoted;
use tokens::{numbers, words};
use utf8::classes::Classes;

// A stripped text: bare; a string without a backslash, with the length of its mark; or one with a backslash, with the number of bytes that
// it denotes.
#[derive(Clone, Copy)]
pub(crate) enum Text {
    Bare,
    Plain(usize),
    Slashed(usize),
}

#[derive(Clone, Copy)]
pub struct Cell {
    pub kind: u32,
    pub place: usize,
    pub size: usize,
}

// A cell or its refusal, and where it ends.
#[derive(Clone, Copy)]
pub struct Ended {
    pub end: usize,
    pub cell: Result<Cell, Refused>,
}

// A text that must be one string and nothing more.
fn quoted_text(t: &Classes, w: &[u8]) -> Result<Text, Refused>
    requires { (0 < length w.now) × (opening w.now ≡ unopened → ⊥) }
    ensures { IsText w.now result }
{
    match quoted::quoted(t, w)? {
        Quoted::Plain(k, e) => {
            if e + 1 < w.len() {
                return Err(Refusal::Trailing.at(e + 1));
            }
            Ok(Text::Plain(k))
        }
        Quoted::Slashed(end, count) => {
            if end < w.len() {
                return Err(Refusal::Trailing.at(end));
            }
            Ok(Text::Slashed(count))
        }
    }
}

// A stripped text of any bytes.
fn any_text(t: &Classes, w: &[u8]) -> Result<Text, Refused>
    requires { 0 < length w.now }
    ensures { IsText w.now result }
{
    let mark = marks::mark_at(w);
    match mark {
        Some(_) => quoted_text(t, w),
        None => {
            bare::check_in(t, w)?;
            Ok(Text::Bare)
        }
    }
}

// A stripped text. Plain bytes stand bare.
fn text_of(t: &Classes, w: &[u8], plain: bool) -> Result<Text, Refused>
    requires { (0 < length w.now) × (plain ≡ true → AllPlain w.now) }
    ensures { IsText w.now result }
{
    if plain {
        return Ok(Text::Bare);
    }
    any_text(t, w)
}

// The kind of a text in a column of Bool; none where it is unfit.
fn bool_kind(w: &[u8]) -> Option<u32>
    ensures { result ≡ bool_kind w.now }
{
    let no = [b'f', b'a', b'l', b's', b'e'];
    if words::same(w, &no) {
        return Some(1);
    }
    let yes = [b't', b'r', b'u', b'e'];
    if words::same(w, &yes) {
        return Some(2);
    }
    None
}

fn all_digits(w: &[u8]) -> bool
    ensures { result ≡ all_digits w.now }
{
    for i in 0..w.len() {
        if !words::is_digit(w[i]) {
            return false;
        }
    }
    true
}

// Whether a text is a JSON number of digits only.
fn is_int(w: &[u8]) -> bool
    requires { 0 < length w.now }
    ensures { result ≡ is_int w.now }
{
    if w[0] == b'0' {
        return w.len() == 1;
    }
    all_digits(w)
}

// The kind of a text in a column of any type but Str; none where it is unfit, and in one of Str.
fn typed_kind(w: &[u8], ty: ColumnType) -> Option<u32>
    requires { 0 < length w.now }
    ensures { result ≡ typed_kind ty w.now }
{
    match ty {
        ColumnType::Bool => bool_kind(w),
        ColumnType::Int => {
            if is_int(w) {
                return Some(3);
            }
            None
        }
        ColumnType::Float => {
            numbers::kind_of(w)?;
            Some(4)
        }
        ColumnType::Str => None,
    }
}

// A stripped text at the place p, whose cell begins at q, in a column of any type but Str. What fits stands bare and has no fault.
fn typed_cell(t: &Classes, w: &[u8], ty: ColumnType, q: usize, p: usize) -> Result<Cell, Refused>
    requires { (0 < length w.now) × (ty ≡ strs → ⊥) × (p + length w.now ≤ text_max) }
    ensures { (m : ℕ) → CellTold (cell_by (read_stripped w.now) ty q p m w.now) w.now (p + length w.now) m result }
{
    if let Some(kind) = typed_kind(w, ty) {
        return Ok(Cell {
            kind,
            place: p,
            size: w.len(),
        });
    }
    match any_text(t, w) {
        Ok(_) => Err(Refusal::WrongType.at(q)),
        Err(refused) => Err(refused.refusal.at(p + refused.place)),
    }
}

// The same in a column of Str, behind m bytes of the store.
fn string_cell(
    t: &Classes,
    w: &[u8],
    plain: bool,
    q: usize,
    p: usize,
    m: usize,
) -> Result<Cell, Refused>
    requires { (0 < length w.now) × (plain ≡ true → AllPlain w.now) × (p + length w.now ≤ text_max) }
    ensures { CellTold (cell_by (read_stripped w.now) strs q p m w.now) w.now (p + length w.now) m result }
{
    let text = match text_of(t, w, plain) {
        Ok(text) => text,
        Err(refused) => {
            return Err(refused.refusal.at(p + refused.place));
        }
    };
    match text {
        Text::Bare => Ok(Cell {
            kind: 5,
            place: p,
            size: w.len(),
        }),
        Text::Plain(k) => Ok(Cell {
            kind: 5,
            place: p + k,
            size: w.len() - (k + 1),
        }),
        Text::Slashed(count) => Ok(Cell {
            kind: 6,
            place: m,
            size: count,
        }),
    }
}

// A cell from behind its tab to its end, behind m bytes of the store.
fn cell_at(
    t: &Classes,
    text: &[u8],
    q: usize,
    e: usize,
    plain: bool,
    ty: ColumnType,
    m: usize,
) -> Result<Cell, Refused>
    requires { (length text.now ≤ text_max) × (q ≤ e) × (e ≤ length text.now) × (plain ≡ true → Plains text.now q e) }
    ensures { CellTold (cell_at ty m (part q (take (e - q) (drop q text.now)))) (strip (take (e - q) (drop q text.now))) e m result }
{
    let c = &text[q..e];
    let a = strip::lead(c);
    let n = strip::trim(&c[a..]);
    if n == 0 {
        return Err(Refusal::EmptyCell.at(q));
    }
    match ty {
        ColumnType::Str => string_cell(t, &c[a..a + n], plain, q, q + a, m),
        _ => typed_cell(t, &c[a..a + n], ty, q, q + a),
    }
}

// The cell from behind its tab on, behind m bytes of the store.
pub fn read(t: &Classes, text: &[u8], q: usize, ty: ColumnType, m: usize) -> Ended
    requires { (length text.now ≤ text_max) × (q ≤ length text.now) }
    ensures { Found text.now q ty m result.end result.cell }
{
    if let Some(ended) = simple::simple(text, q, ty) {
        return ended;
    }
    let span = ends::cell_end(text, q);
    let cell = cell_at(t, text, q, span.end, span.plain, ty, m);
    Ended {
        end: span.end,
        cell,
    }
}

// What a cell of a kind and a length takes of the store.
pub fn stored_by(kind: u32, size: usize) -> usize
    ensures { result ≡ stored_by kind size }
{
    if kind == 6 {
        return size;
    }
    0
}
