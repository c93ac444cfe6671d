// The upload's structs, and its state and answers turned into them.
ghost use Rattle.std.specs.Prelude.{◌≡◌};
ghost use Rattle.structs.specs.Uploads.{is_ended, ended_number, state_of, upload_of, fed_from};

use upload::uploads::{Fed, Upload};

// `j8_upload` of the header.
#[repr(C)]
#[derive(Clone, Copy)]
pub struct J8Upload {
    pub taken: usize,
    pub lfs: usize,
    pub held: usize,
    pub used: usize,
    pub ended: u32,
    pub refusal: u32,
    pub line: usize,
    pub place: usize,
}

// `j8_answer` of the header.
#[repr(C)]
#[derive(Clone, Copy)]
pub struct J8Answer {
    pub number: u32,
    pub line: usize,
    pub place: usize,
}

// `j8_fed` of the header.
#[repr(C)]
#[derive(Clone, Copy)]
pub struct J8Fed {
    pub upload: J8Upload,
    pub answer: J8Answer,
}

fn is_ended(n: u32) -> bool
    ensures { result ≡ is_ended n }
{
    if n == 0 {
        return false;
    }
    true
}

fn ended_number(over: bool) -> u32
    ensures { result ≡ ended_number over }
{
    if over {
        return 1;
    }
    0
}

pub fn state_of(u: J8Upload) -> Upload
    ensures { result ≡ state_of u }
{
    Upload {
        taken: u.taken,
        lfs: u.lfs,
        held: u.held,
        used: u.used,
        ended: is_ended(u.ended),
        refusal: u.refusal,
        line: u.line,
        place: u.place,
    }
}

pub fn upload_of(s: Upload) -> J8Upload
    ensures { result ≡ upload_of s }
{
    J8Upload {
        taken: s.taken,
        lfs: s.lfs,
        held: s.held,
        used: s.used,
        ended: ended_number(s.ended),
        refusal: s.refusal,
        line: s.line,
        place: s.place,
    }
}

pub fn fed_from(f: Fed) -> J8Fed
    ensures { result ≡ fed_from f }
{
    let answer = f.answer;
    J8Fed {
        upload: upload_of(f.state),
        answer: J8Answer {
            number: answer.number,
            line: answer.line,
            place: answer.place,
        },
    }
}
