//! What every layer shares: want of memory, places, texts and rows, and the names of texts.
#![tactic(auto)]

pub mod limits;
pub mod memory;
pub mod names;
pub mod place;
pub mod refusal;
pub mod row;

pub use limits::{FLASH_BYTES, IMAGE_TEXT_LIMIT, TEXT_LIMIT};
pub use memory::NoMemory;
pub use names::{Name, Names};
pub use place::{NodeId, Place};
pub use refusal::Refusal;
pub use row::Row;
