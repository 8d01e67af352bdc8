// How much stack is enough, before methods are named.
use vg_base::Row;

/// How much stack is enough for each run.
#[derive(Drop)]
pub enum StackBound {
    /// So many bytes.
    Bytes(u32),
    /// There is no bound: each of these methods, by their numbers, may call the next one, and the last one the first.
    Cycle(Row<u16>),
}
