//! Runs of programs of linear code, inside the compiler: calls, interrupts and steps, by their meaning, also of programs that are wrong ones.
#![tactic(auto)]

pub mod calls;
pub mod ending;
pub mod frame;
pub mod machine;
pub mod opening;

pub use ending::End;
pub use frame::{Awaits, Frame};
pub use machine::{Machine, run};
pub use opening::Opening;
