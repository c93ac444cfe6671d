// The upload's state and its calls.
ghost use Rattle.std.specs.Prelude.{◌≡◌};
ghost use Rattle.upload.specs.Calls.{lent, fresh, called, fit_state, without_line, answer_of, stop_state, feed, finish};

use crate::pieces;
use prelude::limits::{LINE_MAX, UPLOAD_MAX};
use prelude::refusals::Refusal;

// The state of an upload. A refusal of 0 says that nothing is refused.
#[derive(Clone, Copy)]
pub struct Upload {
    pub taken: usize,
    pub lfs: usize,
    pub held: usize,
    pub used: usize,
    pub ended: bool,
    pub refusal: u32,
    pub line: usize,
    pub place: usize,
}

// What a call answers: all 0 where nothing is refused.
#[derive(Clone, Copy)]
pub struct Answer {
    pub number: u32,
    pub line: usize,
    pub place: usize,
}

// What a call hands back: the new state, and the answer.
#[derive(Clone, Copy)]
pub struct Fed {
    pub state: Upload,
    pub answer: Answer,
}

// Whether a state and buffers of these lengths are fit.
fn is_fit(s: Upload, line: usize, out: usize) -> bool
    ensures { result ≡ fit_state s line out }
{
    if line < LINE_MAX {
        return false;
    }
    if s.held > LINE_MAX {
        return false;
    }
    if s.taken > UPLOAD_MAX {
        return false;
    }
    if s.lfs > s.taken {
        return false;
    }
    s.used <= out
}

// An answer without a line.
fn without_line(number: u32) -> Answer
    ensures { result ≡ without_line number }
{
    Answer {
        number,
        line: 0,
        place: 0,
    }
}

// The answer of a call that left the state s.
fn answer_of(s: Upload) -> Answer
    ensures { result ≡ answer_of s }
{
    if s.refusal == 0 {
        return without_line(0);
    }
    Answer {
        number: s.refusal,
        line: s.line,
        place: s.place,
    }
}

// What stops a call before it does anything: an unfit state or buffer, the refusal that is kept, the end.
fn stop(s: Upload, line: usize, out: usize) -> Option<Answer>
    ensures { result ≡ stop_state s line out }
{
    if !is_fit(s, line, out) {
        return Some(without_line(Refusal::Unfit.number()));
    }
    if s.refusal != 0 {
        return Some(Answer {
            number: s.refusal,
            line: s.line,
            place: s.place,
        });
    }
    if s.ended {
        return Some(without_line(Refusal::Ended.number()));
    }
    None
}

impl Upload {
    pub fn fresh() -> Upload
        ensures { result ≡ fresh }
    {
        Upload {
            taken: 0,
            lfs: 0,
            held: 0,
            used: 0,
            ended: false,
            refusal: 0,
            line: 0,
            place: 0,
        }
    }

    // Takes the bytes of a piece. The line buffer has at least LINE_MAX bytes; records go to `out`.
    pub fn feed(self, piece: &[u8], line: &mut [u8], out: &mut [u8]) -> Fed
        ensures { called result line.new out.new ≡ feed (lent self line.old out.old) piece.now }
    {
        let stopped = stop(self, line.len(), out.len());
        match stopped {
            Some(answer) => Fed {
                state: self,
                answer,
            },
            None => {
                let s = pieces::take_bytes(self, piece, line, out);
                Fed {
                    state: s,
                    answer: answer_of(s),
                }
            }
        }
    }

    // Reads the open line, if it holds a byte, and ends the upload. The line buffer is as the definition leaves it: nothing is written to it.
    pub fn finish(self, line: &[u8], out: &mut [u8]) -> Fed
        ensures { called result line.now out.new ≡ finish (lent self line.now out.old) }
    {
        let stopped = stop(self, line.len(), out.len());
        match stopped {
            Some(answer) => Fed {
                state: self,
                answer,
            },
            None => {
                let s = pieces::take_end(self, line, out);
                Fed {
                    state: s,
                    answer: answer_of(s),
                }
            }
        }
    }
}
