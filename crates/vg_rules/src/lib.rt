//! Which trees are legal, as definitions: the first node that breaks a rule, and what a text has too many of.
#![tactic(auto)]

pub mod what;
