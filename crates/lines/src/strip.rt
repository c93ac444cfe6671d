// The blanks at a line's ends: what is left is the part from `lead` on, as long as `trim` says of it.
ghost use Rattle.std.specs.Prelude.{◌≡◌, length};
ghost use Rattle.lines.specs.Line.{blank, leads, trimmed};

fn is_blank(x: u8) -> bool
    ensures { result ≡ blank x }
{
    if x == b' ' {
        return true;
    }
    if x == b'\t' {
        return true;
    }
    x == b'\r'
}

// How many blanks stand first.
pub fn lead(s: &[u8]) -> usize
    ensures { result ≡ leads s.now }
{
    for i in 0..s.len() {
        if !is_blank(s[i]) {
            return i;
        }
    }
    s.len()
}

// The length without the blanks at the end.
pub fn trim(s: &[u8]) -> usize
    ensures { result ≡ length (trimmed s.now) }
{
    let mut e = s.len();
    // By while: it goes backwards, which a range would need an iterator for.
    while 0 < e {
        if !is_blank(s[e - 1]) {
            return e;
        }
        e -= 1;
    }
    0
}
