// The heap.
use crate::value::CoreValue;
use vg_base::Row;

/// What lies in a cell.
#[derive(Drop)]
pub enum Cell {
    /// An object: its class, and a value for each of the class's fields, in their order.
    Object(u16, Row<CoreValue>),
    /// An array: the number of the type of its elements, and its elements.
    Array(u32, Row<CoreValue>),
}

/// The heap: its cells in order of making, and a value for each field of a component, in their order.
#[derive(Drop)]
pub struct Heap {
    pub cells: Row<Cell>,
    pub globals: Row<CoreValue>,
}
