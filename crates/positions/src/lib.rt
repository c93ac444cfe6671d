// Where a place of a text stands, as an editor counts.
#![tactic(auto)]

ghost use Rattle.std.specs.Prelude.{◌≡◌, ◌+◌, ◌≤◌, ◌<◌};
ghost use Rattle.positions.specs.Positions.{behind_byte, position_of};

use prelude::slices;
use utf8::chars;

// A line and a column in characters, both from 1.
#[derive(Clone, Copy)]
pub struct Position {
    pub line: usize,
    pub column: usize,
}

// The position behind a byte.
fn behind_byte(p: Position, x: u8) -> Position
    requires { (p.line < 0xffffffffffffffff) × (p.column < 0xffffffffffffffff) }
    ensures value { result ≡ behind_byte p x }
    ensures line_bound { (result.line ≤ p.line + 1) × (result.column ≤ p.column + 1) }
{
    if x == b'\n' {
        return Position {
            line: p.line + 1,
            column: 1,
        };
    }
    if chars::in_range(0x80, 0xbf, x) {
        return p;
    }
    Position {
        line: p.line,
        column: p.column + 1,
    }
}

// The position of a place of the text, or of its end where the place is past it.
pub fn position_of(text: &[u8], place: usize) -> Position
    ensures { result ≡ position_of text.now place }
{
    let end = slices::least(place, text.len());
    let mut p = Position { line: 1, column: 1 };
    for i in 0..end {
        p = behind_byte(p, text[i]);
    }
    p
}
