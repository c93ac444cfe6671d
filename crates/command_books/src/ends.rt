// Where a line or name ends.
ghost use Rattle.std.specs.Prelude.{◌<◌, ◌≤◌, length};

// The next place of a byte, or the end of the slice.
pub(crate) fn find(s: &[u8], from: usize, x: u8) -> usize
    requires { from ≤ length s.now }
    ensures { (from ≤ result) × (result ≤ length s.now) }
{
    for i in from..s.len() {
        if s[i] == x {
            return i;
        }
    }
    s.len()
}

// The place behind the next such byte, or the end of the slice.
pub(crate) fn behind_next(s: &[u8], from: usize, x: u8) -> usize
    requires { from < length s.now }
    ensures { (from < result) × (result ≤ length s.now) }
{
    let i = find(s, from, x);
    if i < s.len() {
        return i + 1;
    }
    i
}
