// Pieces of code, before they are named.

/// A piece of code, and the word address at which it begins.
#[derive(Clone, Copy, Debug, PartialEq, Eq)]
pub struct CodePiece {
    pub whose: Whose,
    pub word: u16,
}

/// Whose code a piece is.
#[derive(Clone, Copy, Debug, PartialEq, Eq)]
pub enum Whose {
    /// That from reset on, with the start procedure.
    Start,
    /// The routine of this number: 0 the product, 1 division, 2 the shift left, 3 the shift right.
    Routine(u8),
    /// The finder of a dispatch: the number of the class on which a method is called, and that of a method of this name.
    Dispatch { class: u16, method: u16 },
    /// The method of this number.
    Method(u16),
    /// The piece in which the program waits for interrupts, with the stubs of handlers behind it.
    Idle,
}
