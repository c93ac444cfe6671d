// Byte order marks, which some editors put before a text.
ghost use Rattle.std.specs.Prelude.{◌≡◌};
ghost use Rattle.command_books.specs.Marks.{is_marked, marked_line};

use prelude::slices;

fn begins(s: &[u8]) -> bool
    ensures { result ≡ is_marked s.now }
{
    if slices::byte_at(s, 0, 0) != 0xef {
        return false;
    }
    if slices::byte_at(s, 0, 1) != 0xbb {
        return false;
    }
    slices::byte_at(s, 0, 2) == 0xbf
}

// The line n, if it begins with a mark.
pub fn line_of(line: &[u8], n: usize) -> Option<usize>
    ensures { result ≡ marked_line line.now n }
{
    if begins(line) {
        return Some(n);
    }
    None
}
