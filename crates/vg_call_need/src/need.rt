// What the active calls of a packed program need.
use vg_base::Row;

/// How much stack the active calls of a packed program need.
#[derive(Drop)]
pub enum Need {
    /// At most so many bytes, with those that lie beside the calls.
    Bytes(u64),
    /// Any number: each of these procedures may call the next one, and the last one the first.
    Cycle(Row<u16>),
}
