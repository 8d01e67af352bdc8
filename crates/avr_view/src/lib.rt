//! What the code sees of the machine: registers as a function, the static area and the stack as lists of bytes; where a run goes from there,
//! and what each instruction that the compiler uses does to what is seen.
#![tactic(auto)]

pub mod agreement;
pub mod composing;
pub mod devices;
pub mod flow;
pub mod memory;
pub mod plain;
pub mod stack;
pub mod starting;
pub mod waking;
pub mod worked;
