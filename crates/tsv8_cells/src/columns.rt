// The types of columns.
ghost use Rattle.std.specs.Prelude.{◌≡◌};
ghost use Rattle.tsv8_cells.specs.Types.{type_number};
ghost use Rattle.tsv8_cells.specs.inner.Typed.{type_by};

// "Bool, Int, Float or Str"
#[derive(Clone, Copy, PartialEq, Eq)]
pub enum ColumnType {
    Bool = 1,
    Int = 2,
    Float = 3,
    Str = 4,
}

impl ColumnType {
    // Its number among a sheet's types.
    pub fn number(self) -> u32
        ensures { result ≡ type_number self }
    {
        self as u32
    }
}

// The type of a number, whatever that is: Str of all above 3, Float of 0. So a cell can be read in a column whose type is told by a number.
impl From<u8> for ColumnType {
    ghost from_gives = { λ number ty. ty ≡ type_by number };

    fn from(number: u8) -> ColumnType {
        if 3 < number {
            return ColumnType::Str;
        }
        if number == 1 {
            return ColumnType::Bool;
        }
        if number == 2 {
            return ColumnType::Int;
        }
        ColumnType::Float
    }
}
