// Types.

/// A type. What it is made of has a number in the program's table of types, where equal types have one number.
#[derive(Clone, Copy, Debug, PartialEq, Eq, Hash)]
pub enum CoreType {
    IntType,
    BoolType,
    CharType,
    /// So many bits.
    RawType(u8),
    /// The type of `null`.
    NullType,
    /// The objects of this class and of those below it.
    ClassType(u16),
    /// The arrays of elements of the type of this number.
    ArrayType(u32),
    /// The delegates of methods: the number of the row of their parameters' types, and that of their result's type.
    FunctionType(u32, u32),
    /// No value; also the end of a row.
    NoType,
    /// A row of types: the number of the first, and that of the row behind it.
    MoreTypes(u32, u32),
}
