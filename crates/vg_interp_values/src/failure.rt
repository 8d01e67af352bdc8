// Why no value is made.

/// Why an operator or a cast makes no value.
#[derive(Clone, Copy, Debug, PartialEq, Eq)]
pub enum Failure {
    /// The exception of this code.
    Fails(u8),
    /// No legal program has these operands.
    Unfit,
    /// Also where bits do not fit the width that stands beside them, or a width is above 32: no text has such bits.
    NoMemory,
}
