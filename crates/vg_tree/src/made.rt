// What the tokens and the parts of a parse stand for while its tree is made.
use crate::{Node, Param, TypeTree};
use vg_base::{Name, Place};
use vg_syntax::Kind;

/// What a token or a part of the grammar stands for.
///
/// A row that is being made stands from its end to its front, so that one more at its front is a push.
pub enum Made {
    Absent,
    Word(Kind, Name),
    Tree(Node),
    Row(Vec<Node>),
    Type(TypeTree),
    Types(Vec<TypeTree>),
    Typed(Param),
    Params(Vec<Param>),
    Operators(Vec<Kind>),
    /// The component and the method that an entry names.
    Pair(Name, Name),
    /// What stands behind the first block of an `if`: further pairs, and the last block.
    Arms(Vec<Node>, Node),
    /// The three fields of a `for`.
    Header(Node, Node, Node),
    /// Array levels, each by the place of a bracket, and the suffixes behind them.
    Levels(Vec<Place>, Vec<Node>),
    /// An index, and the suffixes behind it.
    Indexed(Node, Vec<Node>),
    /// The size of a new array, its further levels, and the suffixes behind them.
    Sized(Vec<Place>, Node, Vec<Node>),
    /// A new object, and the suffixes behind it.
    Object(Name, Vec<Node>, Vec<Node>),
    /// A new array, and the suffixes behind it.
    Array(TypeTree, Node, Vec<Node>),
}

impl Drop for Made {
    // By hand: a function that may drop one calls this, where it would have a copy of a derived one.
    fn drop(self) {
        match self {
            Made::Absent => {}
            Made::Word(_, _) => {}
            Made::Tree(_) => {}
            Made::Row(_) => {}
            Made::Type(_) => {}
            Made::Types(_) => {}
            Made::Typed(_) => {}
            Made::Params(_) => {}
            Made::Operators(_) => {}
            Made::Pair(_, _) => {}
            Made::Arms(_, _) => {}
            Made::Header(_, _, _) => {}
            Made::Levels(_, _) => {}
            Made::Indexed(_, _) => {}
            Made::Sized(_, _, _) => {}
            Made::Object(_, _, _) => {}
            Made::Array(_, _, _) => {}
        }
    }
}

/// What is made, with the place of its first token.
#[derive(Drop)]
pub struct Value {
    pub place: Place,
    pub made: Made,
}
