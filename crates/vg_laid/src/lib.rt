//! That programs which are put, first to learn where all code stands and then so that it leads there, stand in the flash of their image.
#![tactic(auto)]

pub mod laws;
pub mod linked;
pub mod linked_images;
