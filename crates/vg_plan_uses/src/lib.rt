//! Which procedures may be the values of delegates, and which each procedure may call.
#![tactic(auto)]

pub mod binding;
pub mod calling;
pub mod held;
pub mod set;

pub use binding::bindable;
pub use calling::edges;
