// Bytes of tables.

/// A byte of a table.
#[derive(Clone, Copy, Debug, PartialEq, Eq)]
pub enum Datum {
    Byte(u8),
    /// The low byte of the code number of the procedure at this place in the packed program.
    CodeLow(u16),
    /// The high byte.
    CodeHigh(u16),
}
