// What a call graph is asked.

/// The largest sum of frames in bytes; or a node on a cycle that a root reaches, where there is one.
#[derive(Clone, Copy, Debug, PartialEq, Eq)]
pub enum Bound {
    Bytes(u64),
    Cycle(u16),
}
