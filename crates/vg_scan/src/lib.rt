//! From the bytes of a text to its tokens, each the longest that fits, with their places and bytes.
#![tactic(auto)]

mod gap;
mod lexeme;
pub mod scanner;
mod spelling;

pub use lexeme::is_hexadecimal;
pub use scanner::{end_place, scan};
