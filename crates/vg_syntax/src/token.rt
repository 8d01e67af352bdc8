// Tokens.
use crate::kind::Kind;
use vg_base::Place;

/// A token of a text: what it is, where it stands, and which bytes of the text are its own.
///
/// Its bytes are those of the text from `start` on and before `end`.
#[derive(Clone, Copy, Debug, PartialEq, Eq)]
pub struct Token {
    pub kind: Kind,
    pub place: Place,
    pub start: usize,
    pub end: usize,
}
