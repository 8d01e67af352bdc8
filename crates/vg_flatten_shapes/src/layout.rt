// Where the columns and the tables of a program stand, and how its procedures are called.
ghost use Rattle.std.specs.Prelude.{◌≡◌};
ghost use Rattle.vg_flatten_shapes.specs.Widths.{bytes_of};

use vg_base::Row;
use vg_firm::ArrayPlace;

/// Where a column stands: the address of its first entry, how many bytes an entry has, and how many entries there are.
#[derive(Clone, Copy)]
pub struct Place {
    pub address: u16,
    pub width: u8,
    pub count: u16,
}

/// How many bytes an argument or a result has.
#[derive(Clone, Copy, Debug, PartialEq, Eq)]
pub enum Width {
    One,
    Two,
    Three,
    Four,
}

impl Width {
    /// The number of bytes.
    pub fn bytes(self) -> u8
        ensures { result ≡ bytes_of self }
    {
        match self {
            Width::One => 1,
            Width::Two => 2,
            Width::Three => 3,
            Width::Four => 4,
        }
    }
}

/// How a procedure is called: whether it gets a receiver, in how many bytes each of its arguments is passed, a receiver before the
/// others, and how many bytes its result has, where it has one.
#[derive(Drop)]
pub struct Passing {
    pub receives: bool,
    pub widths: Row<Width>,
    pub result: Option<Width>,
}

/// The columns in RAM and in flash and the tables of the arrays' places, by their numbers; a table is named by its address. Of a table with
/// one array alone, where that stands. And for each procedure, how it is called by its number.
#[derive(Drop)]
pub struct Layout {
    pub ram: Row<Place>,
    pub flash: Row<Place>,
    pub tables: Row<u16>,
    pub lone_arrays: Row<Option<ArrayPlace>>,
    pub passing: Row<Passing>,
}
