// What separates tokens.

/// Where a reader of what separates tokens stands: between tokens, or inside a comment.
#[derive(Clone, Copy, Debug, PartialEq, Eq)]
pub enum Mode {
    Code,
    Comment,
}
