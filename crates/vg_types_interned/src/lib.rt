//! The types of a text, each with one number: made of all that is written in the text, and found again.
#![tactic(auto)]

mod found;
mod making;
mod rows;
mod table;
mod walk;

pub use found::{function_of, written};
pub use rows::{function_number, written_params};
pub use table::Types;
pub use walk::intern_node;
