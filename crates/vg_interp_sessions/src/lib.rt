//! The initialisation of a typed program, and its sessions: main, and then the interrupts one by one.
#![tactic(auto)]

pub mod idling;
pub mod initialisation;

pub use idling::go;
pub use initialisation::init;
