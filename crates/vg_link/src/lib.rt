//! The linker: procedures of linear code, tables and handlers become the flash of an image, with where all of it stands.
#![tactic(auto)]

pub mod laws;
pub mod linked;
pub mod linking;
pub mod reset;
pub mod stubs;
pub mod tables;
pub mod unlinked;

pub use linked::{CodeFull, Linked};
pub use linking::link;
pub use unlinked::{Handler, Unlinked};
