//! Where values wait while code is flattened, and the pieces of linear code that are put together.
#![tactic(auto)]

pub mod choosing;
pub mod fault;
pub mod layout;
pub mod open;
pub mod piece;
pub mod room;
pub mod shape;

pub use choosing::{branch, choice, stop_where};
pub use fault::Fault;
pub use layout::{Layout, Passing, Place, Width};
pub use open::{Open, Truth};
pub use piece::{Piece, append, behind, nothing, one, place_behind};
pub use room::Room;
pub use shape::{Homes, same_operand};
