// Types and parameters.
use vg_base::Name;

/// A type as it is written. Parentheses leave no trace.
pub enum TypeTree {
    Int,
    Bool,
    Char,
    /// A raw type: the digits of its width.
    Raw(Name),
    /// A class, by its name.
    Class(Name),
    /// So many array levels over a type.
    Array(usize, Box<TypeTree>),
    /// A function type: the row of its parameters' types, and its result or `Nothing`.
    Function(Box<TypeTree>, Box<TypeTree>),
    /// No type is written.
    Nothing,
    /// Types, in order of the text.
    Row(Vec<TypeTree>),
}

impl Drop for TypeTree {
    // By hand: a function that may drop one calls this, where it would have a copy of a derived one.
    fn drop(self) {
        match self {
            TypeTree::Int => {}
            TypeTree::Bool => {}
            TypeTree::Char => {}
            TypeTree::Raw(_) => {}
            TypeTree::Class(_) => {}
            TypeTree::Array(_, _) => {}
            TypeTree::Function(_, _) => {}
            TypeTree::Nothing => {}
            TypeTree::Row(_) => {}
        }
    }
}

/// A parameter of a method or a constructor: its name and its type.
#[derive(Drop)]
pub struct Param {
    pub name: Name,
    pub type_: TypeTree,
}
