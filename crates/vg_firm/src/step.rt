// Steps of the packed program.
//
// Objects are numbers from 1 in their hierarchy, arrays numbers from 1 in their type, and null is 0. Columns and tables are named by
// their places in the program's lists, widths count bytes.

/// Where a column stands.
#[derive(Clone, Copy)]
pub enum Home {
    /// A run may change it.
    Ram,
    /// No run changes it.
    Flash,
}

/// Which numbers an order compares.
#[derive(Clone, Copy)]
pub enum Order {
    /// Ints: 32 bits stand for a signed number.
    Signed,
    /// Chars: a number from 0.
    Unsigned,
}

/// The operators of two numbers.
#[derive(Clone, Copy)]
pub enum Operator {
    /// On ints; a sum, a difference and a product wrap.
    Plus,
    Minus,
    Times,
    Divide,
    Remainder,
    Less(Order),
    AtMost(Order),
    Greater(Order),
    AtLeast(Order),
    Equal,
    Unequal,
    And,
    Or,
    Xor,
    /// A string of so many bits, shifted by an int.
    ShiftLeft(u8),
    ShiftRight(u8),
    /// So many bits are put behind the others.
    Concat(u8),
}

/// The operators of one number.
#[derive(Clone, Copy)]
pub enum Prefix {
    /// On ints.
    Negative,
    /// On truth values.
    Not,
    /// Of so many bits.
    Complement(u8),
    /// So many low bits are kept.
    Cut(u8),
}

/// The elements of the arrays of one type: their column and its address, the table of the arrays' places, and the width of an
/// element.
#[derive(Clone, Copy)]
pub struct Elements {
    pub home: Home,
    pub column: u16,
    pub address: u16,
    pub table: u16,
    pub width: u8,
}

/// Where the elements of an array begin, as an address of the chip, and how many there are.
#[derive(Clone, Copy)]
pub struct ArrayPlace {
    pub address: u16,
    pub length: u16,
}

/// A step. It takes its operands from the values that wait, and its own value waits behind it.
#[derive(Clone, Copy)]
pub enum Step {
    Number(u32),
    /// The receiver's number.
    This,
    Local(u8),
    SetLocal(u8),
    /// The newest value is dropped.
    Forget,
    Operate(Operator),
    Apply(Prefix),
    /// Reads the device register at this address.
    ReadDevice(u8),
    /// Writes the newest value to it.
    WriteDevice(u8),
    /// The one value of a column.
    Load(Home, u16),
    /// Sets it to a value of so many bytes.
    Store(u16, u8),
    /// The value of the object whose number waits; the column begins with the object of the third number.
    LoadAt(Home, u16, u16),
    /// Sets it: the column, the first object, the width.
    StoreAt(u16, u16, u8),
    /// A null check, and the value 0: no object has the field that is read.
    LoadNothing,
    /// A null check alone: the field that is set is not kept.
    StoreNothing,
    /// An element: the array's number and the index wait.
    LoadItem(Elements),
    /// Sets it: the array's number, the index and the value wait.
    StoreItem(Elements),
    /// The length of an array, by the table of its type.
    Length(u16),
    /// Whether an object's number is one of so many from the first on.
    IsWithin(u16, u16),
    /// A cast: the exception 4 unless it is, or is null.
    StopUnlessWithin(u16, u16),
    /// A delegate of a component's method.
    Bind(u16),
    /// A delegate of the method that a dispatch has for the object whose number waits.
    BindFor(u32),
    /// Calls a procedure with so many arguments.
    Call(u16, u8),
    /// Calls the procedure that a dispatch has for the object below so many arguments.
    CallFor(u32, u8),
    /// Calls the delegate below so many arguments.
    CallValue(u8),
    /// Takes an interrupt, or ends the run where none is left.
    Idle,
}
