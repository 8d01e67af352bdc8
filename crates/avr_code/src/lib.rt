//! Code as words and bytes: how many words instructions take in flash, and the bytes that spell them.
#![tactic(auto)]

pub mod bytes;
pub mod words;

pub use bytes::put_bytes;
pub use words::{count_words, width};
