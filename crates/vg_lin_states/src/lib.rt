//! What a procedure of linear code has in hand, in a run inside the compiler: locals, values that wait and the bytes in RAM, and what
//! plain instructions do to them, also those of a program that is a wrong one.
#![tactic(auto)]

pub mod environment;
pub mod local;
pub mod memory;
pub mod plain;
pub mod procedure;
pub mod program;
pub mod state;

pub use environment::Environment;
pub use local::{Held, Local};
pub use plain::Outcome;
pub use procedure::AnyProc;
pub use program::{Handler, LinProgram};
pub use state::LinState;
