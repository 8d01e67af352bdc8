//! The rules on the bodies of members: the typed bodies of the program, or the first breach in them.
#![tactic(auto)]

mod above;
mod field;
mod initial;
mod laws;
mod making;
mod method;
mod parameters;
mod running;

pub use above::super_call;
pub use field::field_initialiser;
pub use initial::initial_value;
pub use laws::{makings_are, makings_are_typed, methods_are, starts_are, starts_are_typed};
pub use making::{Constructed, constructor, made, started};
pub use method::method_body;
pub use parameters::with_parameters;
pub use running::run_body;
