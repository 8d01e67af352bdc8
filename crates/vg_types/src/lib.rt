//! The typed program of a tree that keeps all rules, or why there is none: too many of something, or the first breach.
#![tactic(auto)]

mod assembly;
mod checked;
mod laws;
mod passes;

pub use assembly::{bodies_assembled, program_assembled};
pub use checked::{TypeFault, check};
pub use laws::{initialised_alike, sessions_alike, texts_end};
