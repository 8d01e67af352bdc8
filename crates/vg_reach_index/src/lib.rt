//! What the search for live members looks up: of each class what it is below, the methods that its objects have and their fields,
//! and the cells of its objects.
#![tactic(auto)]

pub mod class_row;
pub mod index;

pub use class_row::ClassRow;
pub use index::Index;
