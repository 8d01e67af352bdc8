//! The image of a list of device writes: the writes come in, and what goes out is a flash that does them in order and then waits for interrupts.
#![tactic(auto)]

mod code;
mod image;

pub use image::image_of;
