//! Trees of texts as the compiler holds them: their nodes, with names in place of the bytes of their tokens; and
//! what parts of a text stand for while its tree is made.
#![tactic(auto)]

pub mod arms;
pub mod contents;
pub mod made;
pub mod node;
pub mod nothing;
pub mod rows;
pub mod type_tree;
pub mod types;

pub use made::{Made, Value};
pub use node::Node;
pub use type_tree::{Param, TypeTree};
