//! The bytes of a source text come in, and what is live in it goes out with its numbers and its columns, all within RAM and flash; or the fault that the text has:
//! one that it has before, or that its columns do not fit.
#![tactic(auto)]

mod fitting;

pub use fitting::{Fitted, Placed, fit};
