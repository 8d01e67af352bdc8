//! How much stack the active calls of a packed program need, or a cycle of its calls, and that this is so of the calls of its typed program.
#![tactic(auto)]

pub mod bounding;
pub mod entries;
pub mod graph;
pub mod laws;
pub mod need;
pub mod telling;
pub mod within;

pub use bounding::stack_need;
pub use entries::handler_of;
pub use need::Need;
pub use telling::bound_of;
pub use within::is_spent;
