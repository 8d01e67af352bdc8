//! The rules on statements that have no statement in them: declarations of locals, assignments, expressions, returns and jumps.
#![tactic(auto)]

mod fault;
mod form;
mod jumps;
mod local;
mod returns;
mod simple;
mod values;

pub use fault::broken;
pub use form::nothing;
pub use jumps::jump;
pub use local::local_statement;
pub use returns::return_statement;
pub use simple::{assign_statement, eval_statement, simple_statement};
pub use values::is_bool;
