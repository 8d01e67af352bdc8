//! Where bytes come from and where they go: a shelf gives files by name, a sink takes pieces, and each failure of either is counted.
#![tactic(auto)]

pub mod asked;
pub mod file;
pub mod memory_shelf;
pub mod memory_sink;
pub mod null_sink;
pub mod shelf;
pub mod sink;
pub mod steady_shelf;

pub use asked::{Asked, note_fetch};
pub use file::{File, find_file, set_file};
pub use memory_shelf::MemoryShelf;
pub use memory_sink::MemorySink;
pub use null_sink::NullSink;
pub use shelf::{FetchFault, Shelf};
pub use sink::{Failed, Sink};
pub use steady_shelf::SteadyShelf;
