// How runs end.

/// How a run ends, and why a check fails.
#[derive(Clone, Copy)]
pub enum End {
    /// An exception, by its code.
    Stop(u8),
    /// A read of the device register at this address, with no read left.
    Wants(u8),
    /// A tick with a clock that is spent.
    Clock,
    /// More than 400 active calls.
    Depth,
    /// More turns of the machine than it makes.
    Turns,
    /// An event for which there is no room.
    Room,
    /// A number or a place that is not what a program made of a legal text has there.
    Wrong(&'static str),
    NoMemory,
}
