// Where procedures stand.
use vg_base::Row;

/// Where a procedure stands, in word addresses.
#[derive(Drop)]
pub struct Placed {
    /// Its entry.
    pub entry: u32,
    /// Where each of its instructions begins.
    pub places: Row<u32>,
    /// What stands behind it.
    pub end: u32,
}

/// Where all procedures stand, in word addresses.
#[derive(Drop)]
pub struct Laid {
    /// Where each of them does, in turn from the start procedure on.
    pub placed: Row<Placed>,
    /// What stands behind all of them.
    pub end: u32,
}
