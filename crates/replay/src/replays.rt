// A whole list of calls, run from an encoded form, a text and a plan: 0 is a finish, and n + 1 feeds the next n bytes of the text, or what is
// left of it.
ghost use Rattle.std.specs.Prelude.{◌≡◌, ◌≤◌, length};
ghost use Rattle.prelude.specs.Limits.{line_max};
ghost use Rattle.upload.specs.Calls.{lent, called};
ghost use Rattle.j8_lines.specs.Lists.{began, run, defined, decode};
ghost use Rattle.replay.specs.inner.Plans.{OneCall};

use upload::uploads::{Answer, Fed, Upload};

// What one call of a plan leaves: its result, and where the next piece begins.
#[derive(Clone, Copy)]
struct Played {
    fed: Fed,
    at: usize,
}

// One call of a plan, with the text fed up to `at`.
fn play_one(s: Upload, text: &[u8], at: usize, c: usize, line: &mut [u8], out: &mut [u8]) -> Played
    requires { at ≤ length text.now }
    ensures { OneCall text.now at c (lent s line.old out.old) (called result.fed line.new out.new) result.at }
{
    if c == 0 {
        let f = s.finish(line, out);
        return Played { fed: f, at };
    }
    if c - 1 <= text.len() - at {
        let end = at + (c - 1);
        let f = s.feed(&text[at..end], line, out);
        return Played { fed: f, at: end };
    }
    let end = text.len();
    let f = s.feed(&text[at..end], line, out);
    Played { fed: f, at: end }
}

// All calls of a plan, from a fresh state. With a fit line buffer it ends as the J8 Lines definition of the joined text says.
pub fn replay(text: &[u8], plan: &[usize], line: &mut [u8], out: &mut [u8]) -> Fed
    ensures out_after { called result line.new out.new ≡ run (began line.old out.old) (decode text.now plan.now) }
    ensures out_after_2 { line_max ≤ length line.old → called result line.new out.new ≡ defined (decode text.now plan.now) line.old out.old }
{
    let mut state = Upload::fresh();
    let mut answer = Answer {
        number: 0,
        line: 0,
        place: 0,
    };
    let mut at = 0;
    for i in 0..plan.len() {
        let p = play_one(state, text, at, plan[i], line, out);
        let f = p.fed;
        state = f.state;
        answer = f.answer;
        at = p.at;
    }
    Fed { state, answer }
}
