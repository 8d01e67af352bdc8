// The arms of an `if`.
use vg_core::Code;

/// An arm.
#[derive(Drop)]
pub(crate) struct Armed {
    pub condition: Code,
    pub block: Code,
    /// Whether the condition is a truth value.
    pub holds: bool,
    /// The number of the node behind it.
    pub next: u32,
}

/// The arms of an `if`.
#[derive(Drop)]
pub(crate) struct AllArms {
    pub codes: Vec<Code>,
    /// Whether all conditions are truth values.
    pub holds: bool,
    /// The number of the node behind them.
    pub next: u32,
}
