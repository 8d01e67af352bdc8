//! The code of legal source programs takes and leaves its values in order: at each place it is known how many wait.
#![tactic(auto)]

mod laws;

pub use laws::{bodies_are_counted, methods_are_counted};
