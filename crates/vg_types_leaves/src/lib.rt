//! The expressions that have no parts: literals, `this`, names and members.
#![tactic(auto)]

mod literal;
mod member;
mod name;
mod numeral;
mod reached;
mod single;

pub use literal::{character, number, string, this_object};
pub use member::{member_behind, member_target, reach_member};
pub use name::{Named, name_alone, name_in_front, name_target};
pub use reached::Reached;
pub use single::{leaf, put};
