//! The methods of the typed program of a text that is refused for nothing take and leave their values in order, and what those of a text cost.
#![tactic(auto)]

mod laws;

pub use laws::{methods_of_texts_cost, methods_of_texts_take_in_order};
