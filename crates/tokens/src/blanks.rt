// Whitespace and comments.
ghost use Rattle.std.specs.Prelude.{◌≡◌, ◌<◌, ◌≤◌, length, get_or, drop};
ghost use Rattle.utf8.specs.Class.{class_of};
ghost use Rattle.utf8.specs.Utf8.{char_len};
ghost use Rattle.tokens.specs.Blanks.{is_space, blanks};

use prelude::refusals::Refused;
use utf8::chars;
use utf8::classes::Classes;

fn is_space(x: u8) -> bool
    ensures { result ≡ is_space x }
{
    if x == b' ' {
        return true;
    }
    if x == b'\n' {
        return true;
    }
    if x == b'\r' {
        return true;
    }
    x == b'\t'
}

// The length of the character at a place that begins with a byte of class k; 0 where none stands. Never put where it is called, so that `skip` stays small.
#[inline(never)]
fn char_len(s: &[u8], at: usize, k: u8) -> usize
    requires { (at < length s.now) × (k ≡ class_of (get_or s.now at 0)) }
    ensures { result ≡ char_len (drop at s.now) }
{
    if k < 5 {
        return 1;
    }
    if k < 6 {
        return 0;
    }
    chars::long_len(s, at, k)
}

// How many bytes of whitespace and comments stand from a place on, or a refusal, its place counted from there. Plain bytes of a comment
// never call.
pub fn skip(t: &Classes, s: &[u8], from: usize) -> Result<usize, Refused>
    requires { from ≤ length s.now }
    ensures { result ≡ blanks (drop from s.now) }
{
    let mut at = from;
    let mut inside = false;
    // By while: a turn goes on by as much as what stands there takes.
    while at < s.len() {
        let x = s[at];
        if inside {
            if x == b'\n' {
                inside = false;
                at += 1;
                continue;
            }
            let k = t.class(x);
            if k == 0 {
                at += 1;
                continue;
            }
            // A Result that is handed back costs as much as reading the character.
            let n = char_len(s, at, k);
            if n != 0 {
                at += n;
                continue;
            }
            match chars::char_at(t, s, at) {
                Ok(n) => {
                    at += n;
                }
                Err(refusal) => {
                    return Err(refusal.at(at - from));
                }
            }
            continue;
        }
        if is_space(x) {
            at += 1;
            continue;
        }
        if x != b'#' {
            return Ok(at - from);
        }
        inside = true;
        at += 1;
    }
    Ok(at - from)
}
