//! The largest sum of frames on a path of a call graph from one of its roots, or a cycle that can be reached from a root.
//!
//! What comes in are nodes with the bytes of their frames, edges, and roots with the bytes that lie below them. A search in depth
//! visits each node once and looks at each edge once; all its memory is taken when the graph is made.
#![tactic(auto)]

pub mod answer;
pub mod graph;
pub mod laws;
pub mod mark;
pub mod root;
pub mod search;
pub mod walk;

pub use answer::Bound;
pub use graph::{CallGraph, bound};
pub use root::Root;
