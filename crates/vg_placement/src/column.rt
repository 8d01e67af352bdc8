// Columns.
use vg_firm::Home;

/// What a column holds.
#[derive(Clone, Copy)]
pub enum Held {
    /// The bytes with which the columns in RAM begin.
    Initial,
    /// The field of this number, for all kept objects that have it, or the one value of a component's field.
    Field(u32),
    /// The elements of all kept arrays of elements of the type of this number, one array behind another.
    Elements(u32),
    /// Where these arrays stand, and how long they are.
    Table(u32),
}

/// A column of values of equal width.
#[derive(Clone, Copy)]
pub struct Column {
    pub what: Held,
    pub home: Home,
    /// Its address: in RAM a data address, in flash a byte address.
    pub at: u16,
    /// The bytes of each of its values.
    pub width: u8,
    /// How many values there are.
    pub count: u16,
}
