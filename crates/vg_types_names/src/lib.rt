//! The declarations of a text by name, and the rules on their names.
#![tactic(auto)]

mod declaration;
mod laws;
mod pass;

pub use declaration::{Declaration, Sort};
pub use laws::map_agrees;
pub use pass::declared_names;
