//! The words of a command line come in, and the command that they mean goes out, or nothing where they mean none.
#![tactic(auto)]

pub mod command;
pub mod items;
pub mod number;
pub mod options;
pub mod plain;
pub mod writing;

pub use command::{Command, command_of};
pub use writing::words_are_read_as_written;
