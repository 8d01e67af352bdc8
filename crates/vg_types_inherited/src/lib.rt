//! The rules on what a class declares beside what it inherits.
#![tactic(auto)]

mod defaults;
mod laws;
mod overriding;
mod pass;
mod same;

pub use laws::{formed_well, overrides_kept};
pub use pass::inherited;
