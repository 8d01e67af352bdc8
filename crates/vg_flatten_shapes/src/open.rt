// Instructions whose places may still be open.
use vg_lin::{Instr, Operand, Test};

/// What the truth value that waits says of a test that was not made yet. A branch makes the test, so that no truth value is built.
#[derive(Clone, Copy)]
pub enum Truth {
    /// The value is true where the test holds.
    Holds(Test),
    /// The value is true where the test does not hold.
    Fails(Test),
}

/// An instruction, or a jump out of the loop around it whose place is not known yet.
#[derive(Clone, Copy)]
pub enum Open {
    Set(Instr),
    /// Goes behind the loop.
    Break,
    /// Goes to what is done behind the loop's body.
    Continue,
}
