// How a run of the machine ends.

/// How a run of the machine has ended.
#[derive(Clone, Copy, Debug, PartialEq, Eq)]
pub enum MachineEnd {
    /// It sleeps, and no interrupt is left.
    Idle,
    /// It has stopped, with this code.
    Stop(u8),
    /// It reads the device register at this data address, and no read is left.
    Wants(u8),
    /// At this word address stands this word, which is no instruction or touches a data address that it must not.
    Bad { pc: u16, word: u16 },
}
