// Cells that few bytes tell: nothing to strip, nothing to decode, and a tab or LF behind them. Most cells of a log are such.
ghost use Rattle.std.specs.Prelude.{true, ◌≡◌, ℕ, ◌≤◌, ◌<◌, IfSome, length, get_or, drop};
ghost use Rattle.tsv8_cells.specs.Types.{strs, ints, floats, bools};
ghost use Rattle.tsv8_cells.specs.inner.Simple.{Over, QuotedCell, BareCell, TypedCell, NamedCell, Found};

use crate::cells::{Cell, Ended};
use crate::columns::ColumnType;
use prelude::slices;
use string_tokens::quoted;
use tokens::{numbers, words};

// Whether a tab or LF stands at a place.
fn is_over(text: &[u8], at: usize) -> bool
    ensures { result ≡ true → Over text.now at }
{
    let x = slices::byte_at(text, at, 0);
    if x == b'\t' {
        return true;
    }
    x == b'\n'
}

// The end of a string in double quotes without a backslash.
fn quoted_end(text: &[u8], q: usize) -> Option<usize>
    requires { (q < length text.now) × (get_or text.now q 0 ≡ 0x22) }
    ensures { IfSome result (λ e. QuotedCell text.now q e) }
{
    let e = quoted::plains_on(text, q + 1);
    if slices::byte_at(text, e, 0) != b'"' {
        return None;
    }
    if is_over(text, e + 1) {
        return Some(e + 1);
    }
    None
}

// The end of plain bytes without a space at either end.
fn bare_end(text: &[u8], q: usize) -> Option<usize>
    requires { q ≤ length text.now }
    ensures { IfSome result (λ e. BareCell text.now q e) }
{
    let e = quoted::plains_on(text, q);
    if e == q {
        return None;
    }
    if text[q] == b' ' {
        return None;
    }
    if text[e - 1] == b' ' {
        return None;
    }
    if is_over(text, e) {
        return Some(e);
    }
    None
}

fn of_str(text: &[u8], q: usize) -> Option<Ended>
    requires { q ≤ length text.now }
    ensures { IfSome result (λ c. (m : ℕ) → Found text.now q strs m c.end c.cell) }
{
    if slices::byte_at(text, q, 0) == b'"' {
        let e = quoted_end(text, q)?;
        return Some(Ended {
            end: e,
            cell: Ok(Cell {
                kind: 5,
                place: q + 1,
                size: e - (q + 2),
            }),
        });
    }
    let e = bare_end(text, q)?;
    Some(Ended {
        end: e,
        cell: Ok(Cell {
            kind: 5,
            place: q,
            size: e - q,
        }),
    })
}

// The end of up to eight digits that are a number.
fn int_end(text: &[u8], q: usize) -> Option<usize>
    requires { q ≤ length text.now }
    ensures { IfSome result (λ e. TypedCell text.now q e ints 3) }
{
    if text.len() - q < 8 {
        return None;
    }
    let k = eights::place(eights::others(eights::eight(text, q)));
    if k == 0 {
        return None;
    }
    if !is_over(text, q + k) {
        return None;
    }
    if text[q] != b'0' {
        return Some(q + k);
    }
    if k == 1 {
        return Some(q + 1);
    }
    None
}

// The end of a number.
fn float_end(text: &[u8], q: usize) -> Option<usize>
    requires { q ≤ length text.now }
    ensures { IfSome result (λ e. TypedCell text.now q e floats 4) }
{
    let number = numbers::number_at(text, q)?;
    let e = q + number.len;
    if is_over(text, e) {
        return Some(e);
    }
    None
}

// The end of a word that names a value and begins with the byte x.
fn named_end(text: &[u8], q: usize, x: u8) -> Option<usize>
    requires { (q ≤ length text.now) × (x ≡ get_or (drop q text.now) 0 0) }
    ensures { IfSome result (λ e. NamedCell text.now q e x) }
{
    let n = words::name_len(text, q, x)?;
    if is_over(text, q + n) {
        return Some(q + n);
    }
    None
}

fn of_int(text: &[u8], q: usize) -> Option<Ended>
    requires { q ≤ length text.now }
    ensures { IfSome result (λ c. (m : ℕ) → Found text.now q ints m c.end c.cell) }
{
    let e = int_end(text, q)?;
    Some(Ended {
        end: e,
        cell: Ok(Cell {
            kind: 3,
            place: q,
            size: e - q,
        }),
    })
}

fn of_float(text: &[u8], q: usize) -> Option<Ended>
    requires { q ≤ length text.now }
    ensures { IfSome result (λ c. (m : ℕ) → Found text.now q floats m c.end c.cell) }
{
    let e = float_end(text, q)?;
    Some(Ended {
        end: e,
        cell: Ok(Cell {
            kind: 4,
            place: q,
            size: e - q,
        }),
    })
}

fn of_bool(text: &[u8], q: usize) -> Option<Ended>
    requires { q ≤ length text.now }
    ensures { IfSome result (λ c. (m : ℕ) → Found text.now q bools m c.end c.cell) }
{
    let x = slices::byte_at(text, q, 0);
    let e = named_end(text, q, x)?;
    if x == b't' {
        return Some(Ended {
            end: e,
            cell: Ok(Cell {
                kind: 2,
                place: q,
                size: e - q,
            }),
        });
    }
    if x == b'f' {
        return Some(Ended {
            end: e,
            cell: Ok(Cell {
                kind: 1,
                place: q,
                size: e - q,
            }),
        });
    }
    None
}

// The cell from behind its tab on, where few bytes tell it.
pub(crate) fn simple(text: &[u8], q: usize, ty: ColumnType) -> Option<Ended>
    requires { q ≤ length text.now }
    ensures { IfSome result (λ c. (m : ℕ) → Found text.now q ty m c.end c.cell) }
{
    match ty {
        ColumnType::Str => of_str(text, q),
        ColumnType::Int => of_int(text, q),
        ColumnType::Bool => of_bool(text, q),
        ColumnType::Float => of_float(text, q),
    }
}
