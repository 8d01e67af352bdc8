// Values.

/// A value of the typed program.
#[derive(Clone, Copy, Debug, PartialEq, Eq)]
pub enum CoreValue {
    Int(i32),
    Bool(bool),
    Char(u8),
    /// So many bits, and what they are.
    Raw(u8, u32),
    Null,
    /// The object in this cell.
    Obj(u32),
    /// The array in this cell.
    Arr(u32),
    /// A method with its receiver, if it has one.
    Bound(Option<u32>, u16),
}
