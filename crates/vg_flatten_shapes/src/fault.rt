// Why there is no linear code.

/// Why a procedure was not flattened.
#[derive(Clone, Copy, Debug, PartialEq, Eq)]
pub enum Fault {
    /// It has a step, or a form of code, that is not taken yet.
    NotTaken,
    /// More values wait at one time than there are temporaries.
    TooHigh,
    /// An instruction would have a place above 65,535.
    TooLong,
}
