//! What stands behind expressions that were judged: the parameters that arguments have to fit, the steps of calls, new objects and new
//! arrays, the elements of arrays, and methods as values.
#![tactic(auto)]

mod array;
mod call;
mod indexed;
mod making;
mod params;
mod settled;

pub use array::array_made;
pub use call::{Called, call_of};
pub use indexed::{element, element_target};
pub use making::making_of;
pub use params::{making_params, params_behind};
pub use settled::settle;
