// Packed programs.
use vg_base::Row;
use vg_codes::Case;
use vg_firm::{ArrayPlace, Procedure};
use vg_tables::Entry;

/// The handler of an interrupt.
#[derive(Clone, Copy, Debug, PartialEq, Eq)]
pub struct Entrance {
    pub vector: u8,
    /// The procedure, by its place in the program.
    pub procedure: u16,
}

/// A packed program. All of its columns stand in RAM.
pub struct FirmProgram {
    /// With which values each column begins, in the order of the columns.
    pub columns: Row<Row<Entry>>,
    /// For each array type with kept arrays, where they stand, in the order of their numbers.
    pub tables: Row<Row<ArrayPlace>>,
    /// The live methods, in order of the text.
    pub procedures: Row<Procedure>,
    /// For each class and selector that is asked for, the procedures of kept objects.
    pub dispatches: Row<Row<Case>>,
    pub main: u16,
    pub handlers: Row<Entrance>,
}

impl Drop for FirmProgram {
    // By hand: a function that may drop one calls this, where it would have a copy of a derived one.
    fn drop(self) {
        let FirmProgram {
            columns: _,
            tables: _,
            procedures: _,
            dispatches: _,
            main: _,
            handlers: _,
        } = self;
    }
}
