// What a text may have too many of.

/// What is counted of a text and has a limit.
#[derive(Clone, Copy, Debug, PartialEq, Eq)]
pub enum What {
    /// Classes and components together.
    Classes,
    /// Methods and constructors together.
    Methods,
    /// The parameters and locals of one method or constructor.
    Locals,
    /// The height of one method, constructor or field initialiser.
    Height,
}
