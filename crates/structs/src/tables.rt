// `j8_nodes` and `j8_shown`: a JSON8 text read, and where a string of a table stands.
ghost use Rattle.std.specs.Prelude.{◌≡◌};
ghost use Rattle.structs.specs.Tables.{unread, nodes_result, shown_result};

use json8::answers::Parsed;
use json8_show::show::Shown;
use prelude::refusals::{Refusal, Refused};

// `j8_nodes` of the header.
#[repr(C)]
#[derive(Clone, Copy)]
pub struct J8Nodes {
    pub number: u32,
    pub place: usize,
    pub nodes: usize,
    pub stored: usize,
}

// `j8_shown` of the header.
#[repr(C)]
#[derive(Clone, Copy)]
pub struct J8Shown {
    pub number: u32,
    pub stored: u32,
    pub place: usize,
    pub length: usize,
}

// A refusal by its number and place, whatever these are.
impl From<(u32, usize)> for J8Nodes {
    ghost from_gives = { λ told r. r ≡ unread told.0 told.1 };

    fn from(told: (u32, usize)) -> J8Nodes {
        J8Nodes {
            number: told.0,
            place: told.1,
            nodes: 0,
            stored: 0,
        }
    }
}

pub fn of_parsed(answer: Result<Parsed, Refused>) -> J8Nodes
    ensures { result ≡ nodes_result answer }
{
    match answer {
        Ok(parsed) => J8Nodes {
            number: 0,
            place: 0,
            nodes: parsed.nodes,
            stored: parsed.stored,
        },
        Err(why) => J8Nodes {
            number: why.refusal.number(),
            place: why.place,
            nodes: 0,
            stored: 0,
        },
    }
}

pub fn of_shown(answer: Option<Shown>) -> J8Shown
    ensures { result ≡ shown_result answer }
{
    match answer {
        Some(Shown::InText(place, size)) => J8Shown {
            number: 0,
            stored: 0,
            place,
            length: size,
        },
        Some(Shown::InStore(place, size)) => J8Shown {
            number: 0,
            stored: 1,
            place,
            length: size,
        },
        None => J8Shown {
            number: Refusal::Unfit.number(),
            stored: 0,
            place: 0,
            length: 0,
        },
    }
}
