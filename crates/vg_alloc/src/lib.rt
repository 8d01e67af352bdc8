//! Locations: what a procedure of linear code keeps where, its frame and the spots of its locals, and that such a layout is sound.
#![tactic(auto)]

pub mod framing;
pub mod living;
pub mod locations;
pub mod needs;
pub mod parameters;
pub mod premises;
pub mod seats;
pub mod spot;

pub use framing::frames;
pub use locations::Locations;
pub use premises::{frames_are_counted, frames_serve_templates};
pub use spot::Spot;
