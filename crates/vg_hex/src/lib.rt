//! Intel HEX: the image of a flash goes in and its text comes out, and a text goes in and the image that it spells comes out.
#![tactic(auto)]

pub mod fault;
pub mod hex_record;
pub mod laws;
pub mod reader;
mod slots;
pub mod writer;

pub use fault::{HexFault, HexRefusal};
pub use laws::{one_image, read_again, write_and_read};
pub use reader::read;
pub use writer::write;
