// Locals and temporaries.

/// How many locals a procedure has, how many temporaries behind them, and how many bytes its result has. Where it gets a receiver, that
/// is its first local.
#[derive(Clone, Copy)]
pub struct Room {
    /// How many of the first locals are a receiver: 1 or 0.
    pub receiver: u8,
    /// Whether it is called on objects alone: then its receiver is never null.
    pub on_objects: bool,
    pub locals: u8,
    pub temps: u8,
    pub result: u8,
}
