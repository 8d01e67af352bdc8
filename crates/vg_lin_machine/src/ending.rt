// How runs end.

/// Why a run is over.
#[derive(Clone, Copy, Debug, PartialEq, Eq)]
pub enum End {
    /// An exception of this code.
    Stopped(u8),
    /// A read of the device register at this address, where no read is left.
    NoRead(u8),
    /// The program idles, and no interrupt is left.
    Done,
    /// What no legal program does.
    Wrong,
}
