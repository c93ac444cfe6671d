// How a run ends, and its status.
ghost use Rattle.std.specs.Prelude.{◌≡◌};
ghost use Rattle.command_outputs.specs.Outcomes.{status_of, refused_at};

use command_words::arguments::Wrong;
use messages::Spot;

#[derive(Clone, Copy)]
pub enum Outcome {
    Done,
    // The text is refused: number, where the place is counted from, place.
    Refused(u32, Spot, usize),
    // A JSON8 text whose written form has so many bytes that it couldn't be read back.
    Long(usize),
    // A name on this line holds the byte that would end it.
    Mixed(usize),
    // Wrong words, or none at all.
    Misused(Option<Wrong>),
    // What the system says of an input that can't be read, or an output that can't be written.
    Unread(i32),
    Unwritten(i32),
}

// A run that ended: the bytes of a text that was read whole, the first line that begins with a byte order mark, and whether the input was empty.
#[derive(Clone, Copy)]
pub struct Run {
    pub outcome: Outcome,
    pub size: usize,
    pub mark: Option<usize>,
    pub empty: bool,
}

pub fn status_of(outcome: Outcome) -> u32
    ensures { result ≡ status_of outcome }
{
    match outcome {
        Outcome::Done => 0,
        Outcome::Refused(_, _, _) => 1,
        Outcome::Long(_) => 1,
        Outcome::Mixed(_) => 1,
        Outcome::Misused(_) => 2,
        Outcome::Unread(_) => 3,
        Outcome::Unwritten(_) => 3,
    }
}

// A refused text, with the line and column of the place.
pub fn refused_at(text: &[u8], number: u32, place: usize) -> Outcome
    ensures { result ≡ refused_at text.now number place }
{
    let p = positions::position_of(text, place);
    Outcome::Refused(number, Spot::Text(p.line, p.column), place)
}
