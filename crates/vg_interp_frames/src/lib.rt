//! What a run over the typed program has in hand but its heap: the values that wait and the locals of the body that runs, above those of
//! the bodies that wait for it. A call moves bounds over its arguments, and copies none of them.
#![tactic(auto)]

pub mod frames;

pub use frames::{Frames, Mark};
