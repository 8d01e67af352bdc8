//! Programs of constants: from the bytes of a text to the writes that it makes to device registers, where it is such a program.
#![tactic(auto)]

pub mod device_write;
pub mod first_text;

pub use device_write::DeviceWrite;
pub use first_text::{NotFirst, read_first};
