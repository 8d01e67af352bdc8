//! The compiler behind the initialised heap: from a typed program and its heap to the image in which the machine does what the program does; and that what was
//! packed and made linear can be linked.
#![tactic(auto)]

pub mod compiled;
pub mod compiling;
pub mod handlers;
pub mod laws;
pub mod measuring;
pub mod no_image;
pub mod pieces;
pub mod unlinking;
pub mod ways;

pub use compiled::Compiled;
pub use compiling::compile;
pub use no_image::NoImage;
pub use vg_link::Linked;
