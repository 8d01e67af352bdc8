//! Members marked as live, in the order of their marking: a mark keeps its reason, and each premise of a reason was marked before.
#![tactic(auto)]

pub mod marks;

pub use marks::Marks;
