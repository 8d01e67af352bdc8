//! What the layout of an image tells of its text: names and types, columns, objects, live members and pieces of code.
#![tactic(auto)]

pub mod areas;
pub mod known;
pub mod live;
pub mod names;
pub mod objects;
pub mod pieces;
pub mod types;

pub use areas::areas_of;
pub use known::Known;
pub use live::live_names;
pub use names::method_names;
pub use objects::{count_methods, count_objects, objects_of};
pub use pieces::pieces_of;
