//! A flash and what is told of it: the flash of a program of constants, the room for the stack of an image, and the layout of a flash.
#![tactic(auto)]

mod flash;
mod laying;
mod room;
mod writes;

pub use flash::Flash;
pub use laying::{known_of, layout_of};
pub use room::{NoRoom, Room, room_above};
pub use writes::written;
