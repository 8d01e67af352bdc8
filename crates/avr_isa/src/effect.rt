// What an instruction leaves to be done outside the processor.

/// What is left to be done once an instruction has changed the processor.
#[derive(Clone, Copy, Debug, PartialEq, Eq)]
pub enum Effect {
    /// Nothing: the next instruction follows.
    Next,
    /// A value of the device register at this data address, 0x20 to 0xFF, goes into the register of this number.
    ReadDevice(u8, u8),
    /// This value goes to the device register at this data address, 0x20 to 0xFF: the address, then the value.
    WriteDevice(u8, u8),
    /// A SLEEP with the I flag set: the next interrupt is taken.
    Sleep,
    /// A jump to itself with the I flag clear: the program has stopped, with its code in r24.
    Halt,
    /// An access to a data address that the instruction must not touch: the processor stays as it was.
    Outside,
}
