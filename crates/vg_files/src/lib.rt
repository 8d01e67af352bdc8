//! Files of the system as a shelf, and streams of the system as sinks.
#![tactic(auto)]

pub mod file_shelf;
pub mod stream_sink;

pub use file_shelf::FileShelf;
pub use stream_sink::StreamSink;
