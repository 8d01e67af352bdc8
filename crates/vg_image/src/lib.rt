//! The flash of an image: its bytes, made of vectors, tables and code, and where each of them stands.
#![tactic(auto)]

pub mod emitting;
pub mod standing;
#[cfg(test)]
mod tests;

pub use emitting::flash;
