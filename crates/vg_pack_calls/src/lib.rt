//! What live methods call: the procedures of methods, the steps that stand in live methods, and what they ask for by dispatch.
#![tactic(auto)]

pub mod asked;
pub mod cases;
pub mod numbering;
pub mod receiving;

pub use asked::{asked_by, live_steps};
pub use cases::dispatches;
pub use numbering::procedure_numbers;
pub use receiving::receivers;
