//! The command `build` behind its file: the bytes of a source text go in, and an image, its HEX text and its layout come out, or why there is none.
#![tactic(auto)]

mod building;
mod flash;

pub use building::{Built, build};
