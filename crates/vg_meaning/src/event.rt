// What a program does to the outside.

/// One entry of a device trace.
///
/// An address is a data address of the chip, from 0x20 to 0xFF; a vector is an interrupt's number, from 1 to 34.
#[derive(Clone, Copy, Debug, PartialEq, Eq)]
pub enum Event {
    /// The register at this address was read, and gave this value.
    Read(u8, u8),
    /// This value was written to the register at this address.
    Write(u8, u8),
    /// The interrupt of this vector was taken.
    Enter(u8),
}
