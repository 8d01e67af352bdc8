// The cases of a dispatch.

/// A case of a dispatch: objects with these numbers have this procedure.
///
/// Numbers of objects are counted from 1 in their hierarchy, and those of a class with all below it lie side by side.
#[derive(Clone, Copy)]
pub struct Case {
    /// The first of the numbers.
    pub first: u16,
    /// How many there are.
    pub count: u16,
    /// The procedure, by its place in the program.
    pub procedure: u16,
}
