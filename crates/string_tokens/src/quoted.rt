// The string that a text begins with, judged and not stored: for readers of texts that hold many.
ghost use Rattle.std.specs.Prelude.{◌≡◌, ◌+◌, ◌-◌, ◌<◌, ◌≤◌, length, get_or, drop, IfSome};
ghost use Rattle.notation.specs.declared.styles.Style.TheVariants.{Json};
ghost use Rattle.notation.specs.Literals.{literal_run};
ghost use Rattle.runs.specs.inner.Blocks.{Running};
ghost use Rattle.notation.specs.Marks.{opens, opening};
ghost use Rattle.strings.specs.Read.{read_units, token_of};
ghost use Rattle.string_tokens.specs.inner.Quotes.{PlainToken, Judged, Plains};

use crate::answers::Quoted;
use crate::short_escapes;
use notation::styles::{Style, Unit};
use notation::{marks, styles};
use prelude::refusals::{Refusal, Refused};
use prelude::slices;
use runs::literals;
use strings::answers::Token;
use utf8::classes::Classes;

// The place behind the closing quote, where one stands at e, behind plain bytes.
fn closed(s: &[u8], e: usize) -> Option<usize>
    requires { (get_or s.now 0 0 ≡ 0x22) × (e < length s.now) × (e ≤ 17) × Running Json s.now 1 e }
    ensures { IfSome result (λ end. (0 < end) × PlainToken s.now 1 (end - 1)) }
{
    if s[e] == b'"' {
        return Some(e + 1);
    }
    None
}

// The place behind a string that begins with a double quote, has no backslash and is short.
pub fn short(s: &[u8]) -> Option<usize>
    requires { get_or s.now 0 0 ≡ 0x22 }
    ensures { IfSome result (λ end. (0 < end) × PlainToken s.now 1 (end - 1)) }
{
    if s.len() < 18 {
        return None;
    }
    let k = eights::place(eights::odds(eights::eight(s, 1)));
    if k < 8 {
        return closed(s, 1 + k);
    }
    closed(s, 9 + eights::place(eights::odds(eights::eight(s, 9))))
}

// A place behind plain bytes, by eights.
pub fn plains_on(s: &[u8], from: usize) -> usize
    requires { from ≤ length s.now }
    ensures { Plains s.now from result }
{
    let mut at = from;
    // By while: a turn takes a whole block, and what is left at last is less than one.
    while 8 <= s.len() - at {
        let a = eights::odds(eights::eight(s, at));
        if a != 0 {
            return at + eights::place(a);
        }
        at += 8;
    }
    at
}

// The units from a place on, where the first run of literal characters ends at e, counted; `spare` are the text's bytes so far that
// denote none.
fn counted(t: &Classes, s: &[u8], from: usize, e: usize, style: Style) -> Result<Token, Refused>
    requires { (from ≤ length s.now) × (e ≡ from + literal_run style 0 (drop from s.now)) }
    ensures { result ≡ token_of (read_units style from 0 (drop from s.now)) }
{
    let mut at = e;
    let mut spare: usize = 0;
    loop {
        if let Some(size) = short_escapes::size_at(s, at, style) {
            at = plains_on(s, at + size.len);
            spare += size.spare;
            continue;
        }
        let unit = units::units::unit_at(t, s, at, style);
        match unit {
            Ok(Unit::Close) => {
                return Ok(Token {
                    end: at + 1,
                    len: at - from - spare,
                });
            }
            Ok(Unit::Took(n, few)) => {
                at = plains_on(s, at + n);
                spare += n - few.count;
            }
            Err(refusal) => {
                return Err(refusal.at(at));
            }
        }
    }
}

// Behind a mark of k bytes.
fn behind(t: &Classes, s: &[u8], k: usize, style: Style) -> Result<Quoted, Refused>
    requires { opening s.now ≡ opens style k }
    ensures { Judged s.now result }
{
    let e = literals::inner_run(t, s, k, style);
    if slices::byte_at(s, e, 0) == styles::quote_of(style) {
        return Ok(Quoted::Plain(k, e));
    }
    let token = counted(t, s, k, e, style)?;
    Ok(Quoted::Slashed(token.end, token.len))
}

// The string that a text begins with.
pub fn quoted(t: &Classes, s: &[u8]) -> Result<Quoted, Refused>
    ensures { Judged s.now result }
{
    match marks::mark_at(s) {
        Some(mark) => behind(t, s, mark.len, mark.style),
        None => Err(Refusal::NoOpening.at(0)),
    }
}
