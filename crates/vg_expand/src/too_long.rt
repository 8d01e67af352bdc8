// Why code is not expanded.

/// An instruction would have a place above 65,535.
#[derive(Clone, Copy, Debug, PartialEq, Eq)]
pub struct TooLong;
