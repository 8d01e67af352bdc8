//! The heap of the typed program as a run holds it: what is looked up in the tables of a program, whether values are of types, the
//! values at places, and new objects and arrays. The number of stored values is kept while the heap grows.
#![tactic(auto)]

pub mod lookup;
pub mod store;
pub mod types_of_values;

pub use store::Store;
