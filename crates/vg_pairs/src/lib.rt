//! The code of a method without pairs of operators: an operator before an operand that is done twice, one time behind the other, does nothing.
#![tactic(auto)]

pub mod item;
pub mod pairs;
pub mod prefix;
pub mod rows;

pub use item::Item;
pub use pairs::without_pairs;
