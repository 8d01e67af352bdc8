//! How large the code of a source program is: that of a method is at most as large as its body has nodes.
#![tactic(auto)]

mod laws;

pub use laws::{bodies_within_nodes, sizes_within_nodes};
