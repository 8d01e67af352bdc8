// Where a local lies.

/// Where a local lies. It has as many bytes there as its width says, the low one first.
#[derive(Clone, Copy, Debug, PartialEq, Eq)]
pub enum Spot {
    /// In the frame, from the byte with this index on. The newest byte of a frame, the one of the lowest address, has the index 0.
    Frame(u16),
    /// In registers, from the one with this number on.
    Registers(u8),
}
