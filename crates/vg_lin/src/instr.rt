// Instructions of linear code.

/// An operand of an instruction.
#[derive(Clone, Copy)]
pub enum Operand {
    /// The value of the local with this number.
    Local(u8),
    /// A value that is known. It costs no code where it waits.
    Known(u32),
}

/// What an instruction computes from two values. Values are bit strings, low bits first; a width counts bytes.
#[derive(Clone, Copy)]
pub enum Operator {
    Plus,
    Minus,
    Times,
    /// The quotient of two signed numbers of four bytes, toward zero.
    Divide,
    /// The remainder of that division, with the sign of the dividend.
    Remainder,
    And,
    Or,
    Xor,
    ShiftLeft,
    ShiftRight,
}

/// How a branch compares two values.
#[derive(Clone, Copy)]
pub enum Comparison {
    /// The first is less than the second, as numbers from 0.
    Below,
    /// The first is less than the second, as signed numbers.
    Less,
    /// Both are the same.
    Same,
}

/// A comparison of the low bytes of two operands, so many as the width says.
#[derive(Clone, Copy)]
pub struct Test {
    pub comparison: Comparison,
    pub width: u8,
    pub left: Operand,
    pub right: Operand,
}

/// A computation: the low bytes of the result, so many as the width says, go to a local.
#[derive(Clone, Copy)]
pub struct Computation {
    pub operator: Operator,
    pub width: u8,
    pub to: u8,
    pub left: Operand,
    pub right: Operand,
}

/// The two memories of the chip that hold columns and tables.
#[derive(Clone, Copy)]
pub enum Memory {
    /// SRAM: columns that a run may change.
    Ram,
    /// Flash: columns and tables that no run changes.
    Flash,
}

/// A place in memory: the byte at the base, so many bytes further as the index says.
#[derive(Clone, Copy)]
pub struct Address {
    pub base: u16,
    pub index: Operand,
}

/// An instruction that goes on to the one behind it, or ends the run.
#[derive(Clone, Copy)]
pub enum Plain {
    /// The value goes to a local.
    Copy(u8, Operand),
    Compute(Computation),
    /// The product of the low bytes of two values, in two bytes, goes to a local. Only routines use it, and what stands in place of
    /// the product of two bytes.
    Product(u8, Operand, Operand),
    /// The 32 steps of a division of four bytes, of the local of the remainder, that of the dividend and the divisor. Only routines use it.
    ///
    /// Each step shifts remainder and dividend left by one bit, as one number of eight bytes whose upper half is the
    /// remainder. Where the remainder is then at least the divisor, the divisor is taken from it and the lowest bit of
    /// the dividend is set.
    DivideSteps(u8, u8, Operand),
    /// So many bytes, low bytes first, go to a local.
    Load(Memory, u8, u8, Address),
    /// So many low bytes of a value go to RAM, low bytes first.
    Store(u8, Address, Operand),
    /// What the device register at this address reads goes to a local.
    ReadDevice(u8, u8),
    /// The low byte of a value is written to the device register at this address.
    WriteDevice(u8, Operand),
    /// So many low bytes of a value wait for a call.
    Push(u8, Operand),
    /// The newest value that waits, which has so many bytes, goes to a local and waits no more.
    Pop(u8, u8),
    /// The code number of the procedure that a dispatch has for the number of an object goes to a local.
    Find(u32, u8, Operand),
    /// The code number of the procedure with this number goes to a local.
    CodeOf(u16, u8),
    /// The run ends with an exception of this code.
    Stop(u8),
}

/// What a call calls.
#[derive(Clone, Copy)]
pub enum Callee {
    /// The procedure with this number.
    Procedure(u16),
    /// The procedure whose code number stands in the low two bytes of a value.
    Code(Operand),
}

/// An argument that goes in registers: so many low bytes of a value, as many as the parameter has that it becomes.
#[derive(Clone, Copy)]
pub struct Passed {
    pub width: u8,
    pub value: Operand,
}

/// The last arguments of a call, which go in registers.
#[derive(Clone, Copy)]
pub enum Registers {
    Empty,
    One(Passed),
    Two(Passed, Passed),
    Three(Passed, Passed, Passed),
    Four(Passed, Passed, Passed, Passed),
}

/// Where a result goes: how many bytes it has, as many as the procedure that is called gives back, and the local that gets them.
#[derive(Clone, Copy)]
pub struct Target {
    pub width: u8,
    pub local: u8,
}

/// A call: the newest values that wait are its first arguments, so many as it says, in the order in which they were pushed.
#[derive(Clone, Copy)]
pub struct Call {
    pub callee: Callee,
    pub pushed: u8,
    pub registers: Registers,
    /// The local that gets the result, where it is not dropped.
    pub to: Option<Target>,
}

/// An instruction. A place is an index in the procedure's list of instructions.
#[derive(Clone, Copy)]
pub enum Instr {
    Plain(Plain),
    /// Goes to the place where the test holds.
    When(Test, u16),
    /// Goes to the place where the test does not hold.
    Unless(Test, u16),
    Jump(u16),
    Call(Call),
    /// Ends the procedure; so many low bytes of a value are its result.
    Return(u8, Operand),
    /// Takes the next interrupt and calls its handler, or ends the run where none is left.
    Idle,
}
