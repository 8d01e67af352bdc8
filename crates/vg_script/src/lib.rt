//! Scripts and traces: the text of a script goes in and its reads and interrupts come out, events and endings go in and their lines come out.
#![tactic(auto)]

pub mod reader;
pub mod script;
pub mod traces;

pub use reader::read_script;
pub use script::{Script, ScriptFault};
pub use traces::{EndLine, put_ending, put_event};
