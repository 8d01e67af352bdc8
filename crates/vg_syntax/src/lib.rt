//! The source language as definitions: its tokens, its grammar, its tree and the faults of texts, with the small types that they speak of.
#![tactic(auto)]

pub mod gap;
pub mod grammar;
pub mod kind;
pub mod laws;
pub mod lexeme;
pub mod token;

pub use gap::Mode;
pub use grammar::{Part, Symbol};
pub use kind::Kind;
pub use laws::numbers_leave_counts;
pub use lexeme::Lexeme;
pub use token::Token;
