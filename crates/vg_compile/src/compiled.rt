// What is compiled.
use vg_base::Row;
use vg_layout::{CodePiece, StackBound};
use vg_link::{Linked, Unlinked};

/// An image, what was linked for it, and how much stack is enough.
#[derive(Drop)]
pub struct Image {
    pub unlinked: Unlinked,
    pub linked: Linked,
    pub bound: StackBound,
}

/// The image of a program, and what its layout tells.
#[derive(Drop)]
pub struct Compiled {
    pub linked: Linked,
    pub bound: StackBound,
    /// The pieces of its code, by ascending addresses.
    pub pieces: Row<CodePiece>,
}
