// Where something stands in a source text.

/// A place in a text: the line is 1 plus the line ends before it, the column 1 plus the bytes behind the last line end.
#[derive(Clone, Copy, Debug, PartialEq, Eq)]
pub struct Place {
    pub line: u32,
    pub col: u32,
}

/// A node of a tree, by its number in preorder.
#[derive(Clone, Copy, Debug, PartialEq, Eq)]
pub struct NodeId(pub u32);
