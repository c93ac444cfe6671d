// `j8_sheet`: a TSV8 text read.
ghost use Rattle.std.specs.Prelude.{◌≡◌};
ghost use Rattle.structs.specs.Sheets.{unread, sheet_result};

use prelude::refusals::Refused;
use tsv8::answers::Sheet;

// `j8_sheet` of the header.
#[repr(C)]
#[derive(Clone, Copy)]
pub struct J8Sheet {
    pub number: u32,
    pub place: usize,
    pub columns: usize,
    pub cells: usize,
    pub stored: usize,
}

// A refusal by its number and place, whatever these are.
impl From<(u32, usize)> for J8Sheet {
    ghost from_gives = { λ told r. r ≡ unread told.0 told.1 };

    fn from(told: (u32, usize)) -> J8Sheet {
        J8Sheet {
            number: told.0,
            place: told.1,
            columns: 0,
            cells: 0,
            stored: 0,
        }
    }
}

pub fn of_sheet(answer: Result<Sheet, Refused>) -> J8Sheet
    ensures { result ≡ sheet_result answer }
{
    match answer {
        Ok(sheet) => J8Sheet {
            number: 0,
            place: 0,
            columns: sheet.columns,
            cells: sheet.cells,
            stored: sheet.stored,
        },
        Err(why) => J8Sheet {
            number: why.refusal.number(),
            place: why.place,
            columns: 0,
            cells: 0,
            stored: 0,
        },
    }
}
