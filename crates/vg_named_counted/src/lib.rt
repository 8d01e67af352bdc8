//! The methods of the typed program of a text take and leave their values in order, have few parameters and locals, and are as large as in its tree.
#![tactic(auto)]

mod laws;

pub use laws::{methods_have_sizes, methods_take_in_order};
