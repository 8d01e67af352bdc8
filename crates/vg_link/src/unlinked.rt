// What is linked.
use vg_base::Row;
use vg_codes::Case;
use vg_lin::LinProc;
use vg_tables::Datum;

/// The handler of an interrupt.
#[derive(Clone, Copy, Debug, PartialEq, Eq)]
pub struct Handler {
    /// The number of the interrupt's vector, from 1 to 34.
    pub vector: u8,
    /// The procedure that is called, by its number. It has no parameters.
    pub procedure: u16,
}

/// A program of linear code, before it is known where its code stands.
pub struct Unlinked {
    /// All procedures. A procedure's number is its index.
    pub procedures: Row<LinProc>,
    /// The number of the procedure with which a run begins. It has no parameters.
    pub start: u16,
    /// The cases of each dispatch.
    pub dispatches: Row<Row<Case>>,
    /// The bytes of the tables in flash, at most 60,000: those with which the columns in RAM begin, and the tables of arrays.
    pub tables: Row<Datum>,
    /// How many of the first of these bytes are those of the columns in RAM: at most 4,096.
    pub static_bytes: u16,
    /// The handlers. Where two have the same vector, the first one counts.
    pub handlers: Row<Handler>,
}

impl Drop for Unlinked {
    // By hand: a function that may drop one calls this, where it would have a copy of a derived one.
    fn drop(self) {
        let Unlinked {
            procedures: _,
            start: _,
            dispatches: _,
            tables: _,
            static_bytes: _,
            handlers: _,
        } = self;
    }
}
