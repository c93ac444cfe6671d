// Where a line ends: the next LF of a text, looked for by blocks.
#![tactic(auto)]

ghost use Rattle.std.specs.Prelude.{false, ◌≡◌, ◌+◌, ◌≤◌, length, drop};
ghost use Rattle.line_ends.specs.inner.Ends.{line_run, NoLf};

// Whether one of 32 bytes is an LF. They are tested without an early end, so that they are compared at once.
fn any_lf(p: &[u8], at: usize) -> bool
    requires { at + 32 ≤ length p.now }
    ensures { result ≡ false → NoLf p.now at 32 }
{
    let mut found = false;
    for k in 0..32 {
        found = found | (p[at + k] == b'\n');
    }
    found
}

// The place of the next LF from a place on, or the end, byte by byte.
fn lf_near(p: &[u8], from: usize) -> usize
    requires { from ≤ length p.now }
    ensures { result ≡ from + line_run (drop from p.now) }
{
    for i in from..p.len() {
        if p[i] == b'\n' {
            return i;
        }
    }
    p.len()
}

// The place of the next LF from a place on, or the end.
pub fn lf_from(p: &[u8], from: usize) -> usize
    requires { from ≤ length p.now }
    ensures { result ≡ from + line_run (drop from p.now) }
{
    let mut i = from;
    // By while: a turn takes a whole block, and what is left at last is less than one.
    while 32 <= p.len() - i {
        if any_lf(p, i) {
            return lf_near(p, i);
        }
        i += 32;
    }
    lf_near(p, i)
}
