// What begins at a place.
ghost use Rattle.std.specs.Prelude.{◌≡◌, ◌≤◌, length, drop};
ghost use Rattle.notation.specs.Marks.{opening};
ghost use Rattle.tokens.specs.Starts.{is_opening, start_of};

use crate::words;
use notation::marks;

// What begins at a place: the text's end, a token by its kind, or nothing.
#[derive(Clone, Copy)]
pub enum Start {
    Ended,
    String,
    Word,
    Number,
    List,
    Dict,
    Nothing,
}

// Whether a string begins at a place.
fn opens(s: &[u8], at: usize) -> bool
    requires { at ≤ length s.now }
    ensures { result ≡ is_opening (opening (drop at s.now)) }
{
    match marks::mark_at(&s[at..]) {
        Some(_) => true,
        None => false,
    }
}

// What begins at a place.
pub fn start_at(s: &[u8], at: usize) -> Start
    requires { at ≤ length s.now }
    ensures { result ≡ start_of (drop at s.now) }
{
    if s.len() <= at {
        return Start::Ended;
    }
    if opens(s, at) {
        return Start::String;
    }
    let x = s[at];
    if words::is_letter(x) {
        return Start::Word;
    }
    if words::is_digit(x) {
        return Start::Number;
    }
    if x == b'-' {
        return Start::Number;
    }
    if x == b'[' {
        return Start::List;
    }
    if x == b'{' {
        return Start::Dict;
    }
    Start::Nothing
}
