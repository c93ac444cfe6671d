// The opening mark of a string.
ghost use Rattle.std.specs.Prelude.{◌≡◌};
ghost use Rattle.notation.specs.Marks.{opens, opening, opening_of};

use crate::styles::Style;
use prelude::slices;

// An opening mark: its style and its length.
#[derive(Clone, Copy)]
pub struct Mark {
    pub style: Style,
    pub len: usize,
}

fn opens(style: Style, len: usize) -> Option<Mark>
    ensures { opening_of result ≡ opens style len }
{
    Some(Mark { style, len })
}

// The mark that a text begins with.
pub fn mark_at(s: &[u8]) -> Option<Mark>
    ensures { opening_of result ≡ opening s.now }
{
    let a = slices::byte_at(s, 0, 0);
    if a == b'"' {
        return opens(Style::Json, 1);
    }
    if a == b'\'' {
        return opens(Style::Unicode, 1);
    }
    if slices::byte_at(s, 0, 1) != b'\'' {
        return None;
    }
    if a == b'u' {
        return opens(Style::Unicode, 2);
    }
    if a == b'b' {
        return opens(Style::Bytes, 2);
    }
    None
}
