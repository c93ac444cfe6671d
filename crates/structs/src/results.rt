// `j8_result`: a string read; a string, records as lines or a table written.
ghost use Rattle.std.specs.Prelude.{◌≡◌};
ghost use Rattle.structs.specs.Results.{done, numbered, refusal, decoded_result, written_result};

use prelude::refusals::{Refusal, Refused};

// `j8_result` of the header.
#[repr(C)]
#[derive(Clone, Copy)]
pub struct J8Result {
    pub number: u32,
    pub place: usize,
    pub length: usize,
}

fn done(n: usize) -> J8Result
    ensures { result ≡ done n }
{
    J8Result {
        number: 0,
        place: 0,
        length: n,
    }
}

fn refusal(why: Refused) -> J8Result
    ensures { result ≡ refusal why.refusal why.place }
{
    J8Result {
        number: why.refusal.number(),
        place: why.place,
        length: 0,
    }
}

// A refusal by its number and place, whatever these are.
impl From<(u32, usize)> for J8Result {
    ghost from_gives = { λ told r. r ≡ numbered told.0 told.1 };

    fn from(told: (u32, usize)) -> J8Result {
        J8Result {
            number: told.0,
            place: told.1,
            length: 0,
        }
    }
}

pub fn of_decoded(answer: Result<usize, Refused>) -> J8Result
    ensures { result ≡ decoded_result answer }
{
    match answer {
        Ok(n) => done(n),
        Err(why) => refusal(why),
    }
}

pub fn of_written(answer: Result<usize, Refusal>) -> J8Result
    ensures { result ≡ written_result answer }
{
    match answer {
        Ok(n) => done(n),
        Err(why) => refusal(why.at(0)),
    }
}
