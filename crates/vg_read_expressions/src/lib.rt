//! What parts of expressions make of their kids: levels of operators, suffixes, literals.
#![tactic(auto)]

pub mod levels;
pub mod primary;
pub mod suffixes;
