// What a text begins with.
use crate::kind::Kind;

/// What a text begins with: its kind, and how many bytes it takes.
///
/// Bytes that begin no token are of kind `Unknown`, and take all of the text.
#[derive(Clone, Copy, Debug, PartialEq, Eq)]
pub struct Lexeme {
    pub kind: Kind,
    pub length: usize,
}
