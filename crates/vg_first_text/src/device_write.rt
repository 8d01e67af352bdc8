// Writes to device registers.

/// A write of a value to a device register.
#[derive(Clone, Copy, Debug, PartialEq, Eq)]
pub struct DeviceWrite {
    /// The data address of the register, in bytes.
    pub address: u8,
    /// What is written.
    pub value: u8,
}
