// What is refused, and where. specs/Refusals.antt has the row or the sentence of documents 01 and 02 for each number.
ghost use Rattle.std.specs.Prelude.{◌≡◌};
ghost use Rattle.prelude.specs.Refusals.{number_of, refused_at};

#[derive(Clone, Copy, PartialEq, Eq)]
pub enum Refusal {
    Unfit = 1,
    TooLong = 2,
    NoOpening = 3,
    CutOff = 4,
    Control = 6,
    BadEscape = 7,
    Surrogate = 8,
    TooLarge = 9,
    ByteEscape = 10,
    Trailing = 11,
    NoRoom = 12,
    Misplaced = 13,
    BadNumber = 14,
    TooDeep = 15,
    TooMany = 16,
    OverLimit = 17,
    Ended = 18,
    BadHeader = 19,
    BadLine = 20,
    WrongType = 21,
    EmptyCell = 22,
    Utf8BadEncoding = 23,
    Utf8Incomplete = 24,
    Utf8Overlong = 25,
    Utf8Surrogate = 26,
    Utf8TooLarge = 27,
}

// A refusal and its place in what was read.
#[derive(Clone, Copy, PartialEq, Eq)]
pub struct Refused {
    pub refusal: Refusal,
    pub place: usize,
}

impl Refusal {
    // Its number in documents 01 and 02, and in C.
    pub fn number(self) -> u32
        ensures { result ≡ number_of self }
    {
        self as u32
    }

    pub fn at(self, place: usize) -> Refused
        ensures { result ≡ refused_at self place }
    {
        Refused {
            refusal: self,
            place,
        }
    }
}
