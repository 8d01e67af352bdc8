//! Code numbers of procedures, and dispatch: which procedure a call has for the number of an object. The packed program, linear
//! code and the machine's code share both.
#![tactic(auto)]

pub mod case;

pub use case::Case;
