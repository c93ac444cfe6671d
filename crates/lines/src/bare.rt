// A bare line's check.
ghost use Rattle.std.specs.Prelude.{◌≡◌, ◌≤◌, length, drop};
ghost use Rattle.lines.specs.Line.{bare_from, bare};

use notation::styles::Style;
use prelude::refusals::{Refusal, Refused};
use runs::{blocks, literals};
use utf8::chars;
use utf8::classes::Classes;

// Whether the characters from a place on are well-formed, with no control but tab.
fn check_from(t: &Classes, s: &[u8], from: usize) -> Result<(), Refused>
    requires { from ≤ length s.now }
    ensures { result ≡ bare_from from 0 (drop from s.now) }
{
    let mut at = from;
    // By while: a turn goes on by as much as what stands there takes.
    while at < s.len() {
        let x = s[at];
        let k = t.class(x);
        if k < 5 {
            if k != 1 {
                at += 1;
                continue;
            }
            if x == b'\t' {
                at += 1;
                continue;
            }
            return Err(Refusal::Control.at(at));
        }
        match chars::long_at(s, at, k) {
            Ok(n) => {
                at += n;
            }
            Err(refusal) => {
                return Err(refusal.at(at));
            }
        }
    }
    Ok(())
}

// Whether a text is valid UTF-8 with no control but tab. What is literal in a string may stand bare, so blocks take the most of it; the
// table is made only where they don't reach the end.
pub(crate) fn check_bare(s: &[u8]) -> Result<(), Refused>
    ensures { result ≡ bare s.now }
{
    let at = blocks::strides_to_end(s, 0, Style::Json);
    if at == s.len() {
        return Ok(());
    }
    let t = Classes::new();
    let e = literals::literal_run(&t, s, at, Style::Json);
    check_from(&t, s, e)
}

// The same with the table lent, for readers of many texts.
pub fn check_in(t: &Classes, s: &[u8]) -> Result<(), Refused>
    ensures { result ≡ bare s.now }
{
    let e = literals::literal_run(t, s, 0, Style::Json);
    check_from(t, s, e)
}
