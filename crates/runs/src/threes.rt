// Literal characters of up to three bytes by blocks of sixteen. A block is tested without an early end, so that its bytes are compared
// at once.
ghost use Rattle.std.specs.Prelude.{true, false, ◌≡◌, ◌+◌, ◌≤◌, length};
ghost use Rattle.runs.specs.inner.Blocks.{Tripled, AllTripled, Begun};

use crate::blocks;

// A byte that stands in no literal character of up to three bytes, or that the next two can't follow.
fn odd_three(q: u8, b: u8, c: u8, d: u8) -> bool
    ensures { (result ≡ false → Tripled q b c d) × (Tripled q b c d → result ≡ false) }
{
    (b < 32)
        | ((b >= 0xf0)
            | ((b == b'\\')
                | ((b == q)
                    | ((b == 0xc0)
                        | ((b == 0xc1)
                            | (((b == 0xe0) & (c < 0xa0))
                                | (((b == 0xed) & (c >= 0xa0))
                                    | (blocks::continues(d) != ((c >= 0xc0) | (b >= 0xe0))))))))))
}

// Whether one of sixteen bytes is odd beside the next two.
pub fn any_odd_three(q: u8, s: &[u8], at: usize) -> bool
    requires { at + 18 ≤ length s.now }
    ensures { (result ≡ false → AllTripled q s.now at 16) × (AllTripled q s.now at 16 → result ≡ false) }
{
    let mut found = false;
    for k in 0..16 {
        found = found | odd_three(q, s[at + k], s[at + k + 1], s[at + k + 2]);
    }
    found
}

// Whether a character may begin with two bytes: no continuation, and one behind it just where it is a lead.
pub fn begins(b: u8, c: u8) -> bool
    ensures { (result ≡ true → Begun b c) × (Begun b c → result ≡ true) }
{
    if blocks::continues(b) {
        return false;
    }
    blocks::continues(c) == (b >= 0xc0)
}
