// Where paths begin.

/// A node at which a path may begin, and how many bytes lie below its frame.
#[derive(Clone, Copy, Debug, PartialEq, Eq)]
pub struct Root {
    pub node: u16,
    pub extra: u32,
}
