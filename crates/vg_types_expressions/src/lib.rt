//! The rules on expressions: the code that an expression stands for and its type, or the first breach in it.
#![tactic(auto)]

mod aimed;
mod argued;
mod called;
mod rows;
mod whole;

pub use aimed::target;
pub use argued::{Argued, arguments};
pub use whole::expression;
