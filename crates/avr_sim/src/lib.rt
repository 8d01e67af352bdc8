//! The simulator: the image of a flash and a script go in, and the lines of the machine's trace and its ending come out.
#![tactic(auto)]

pub mod machine;
mod running;

pub use machine::Machine;
