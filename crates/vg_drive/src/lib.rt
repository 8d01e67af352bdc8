//! The top call: the words of a command come in, a shelf is asked for its files, and an image or a trace, a note and a status go out.
#![tactic(auto)]

mod build;
mod call;
mod trial;

pub use call::run;
