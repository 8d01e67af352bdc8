//! What every meaning of a program shares: the world, answers, ticks, calls, loops, devices and interrupts, and structured code
//! with one meaning, as definitions.
#![tactic(auto)]

pub mod event;

pub use event::Event;
