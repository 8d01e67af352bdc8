// Nodes.
use crate::type_tree::{Param, TypeTree};
use vg_base::{Name, Place};
use vg_syntax::Kind;

/// A node of the tree, or a row of nodes.
///
/// The place of a node is that of its first token; that of a `Part` or a `TypePart` is its operator's. Names, numbers, characters and strings are kept as the
/// spelling of their token, which has a name.
pub enum Node {
    /// Nothing is written where a node may be left out.
    Nothing,
    /// Nodes, in order of the text.
    Row(Vec<Node>),
    /// The pairs of an `if`, in order of the text.
    Arms(Vec<Node>),
    /// A condition and its block, in a row of pairs.
    Pair(Box<Node>, Box<Node>),
    Text(Place, Box<Node>),
    ClassDecl(Place, Name, Option<Name>, Box<Node>),
    ComponentDecl(Place, Name, Box<Node>),
    DeviceDecl(Place, Name, Box<Node>),
    RegisterDecl(Place, Name, Name),
    ProgramDecl(Place, Name, Box<Node>),
    /// An entry: its key, and the component and the method that it names.
    EntryDecl(Place, Name, Name, Name),
    FieldDecl(Place, Name, TypeTree, Box<Node>),
    MethodDecl(Place, Name, Vec<Param>, TypeTree, Box<Node>),
    /// A constructor: its parameters, whether it calls that of the class above, the arguments of that call, and its block.
    ConstructorDecl(Place, Vec<Param>, bool, Box<Node>, Box<Node>),
    Block(Place, Box<Node>),
    Local(Place, Name, TypeTree, Box<Node>),
    /// An `if`: its pairs, and the last block or `Nothing`.
    If(Place, Box<Node>, Box<Node>),
    While(Place, Box<Node>, Box<Node>),
    /// A `for`: its three fields, and its block.
    For(Place, Box<Node>, Box<Node>, Box<Node>, Box<Node>),
    Return(Place, Box<Node>),
    Break(Place),
    Continue(Place),
    /// An assignment: its target and its value.
    Assign(Place, Box<Node>, Box<Node>),
    Eval(Place, Box<Node>),
    Number(Place, Name),
    CharLiteral(Place, Name),
    StringLiteral(Place, Name),
    True(Place),
    False(Place),
    Null(Place),
    This(Place),
    Name(Place, Name),
    /// A new object: its class and its arguments.
    NewObject(Place, Name, Box<Node>),
    /// A new array: the type of an element, and the length.
    NewArray(Place, TypeTree, Box<Node>),
    /// An operand with the operators before it, in order of the text.
    Unary(Place, Vec<Kind>, Box<Node>),
    /// A chain of operators of one level: its first operand, and its parts.
    Chain(Place, Box<Node>, Box<Node>),
    Part(Place, Kind, Box<Node>),
    /// A cast or a type test.
    TypePart(Place, Kind, TypeTree),
    /// An operand with its suffixes.
    Postfix(Place, Box<Node>, Box<Node>),
    Member(Place, Name),
    Index(Place, Box<Node>),
    Call(Place, Box<Node>),
}

impl Drop for Node {
    // By hand: a function that may drop one calls this, where it would have a copy of a derived one.
    fn drop(self) {
        match self {
            Node::Nothing => {}
            Node::Row(_) => {}
            Node::Arms(_) => {}
            Node::Pair(_, _) => {}
            Node::Text(_, _) => {}
            Node::ClassDecl(_, _, _, _) => {}
            Node::ComponentDecl(_, _, _) => {}
            Node::DeviceDecl(_, _, _) => {}
            Node::RegisterDecl(_, _, _) => {}
            Node::ProgramDecl(_, _, _) => {}
            Node::EntryDecl(_, _, _, _) => {}
            Node::FieldDecl(_, _, _, _) => {}
            Node::MethodDecl(_, _, _, _, _) => {}
            Node::ConstructorDecl(_, _, _, _, _) => {}
            Node::Block(_, _) => {}
            Node::Local(_, _, _, _) => {}
            Node::If(_, _, _) => {}
            Node::While(_, _, _) => {}
            Node::For(_, _, _, _, _) => {}
            Node::Return(_, _) => {}
            Node::Break(_) => {}
            Node::Continue(_) => {}
            Node::Assign(_, _, _) => {}
            Node::Eval(_, _) => {}
            Node::Number(_, _) => {}
            Node::CharLiteral(_, _) => {}
            Node::StringLiteral(_, _) => {}
            Node::True(_) => {}
            Node::False(_) => {}
            Node::Null(_) => {}
            Node::This(_) => {}
            Node::Name(_, _) => {}
            Node::NewObject(_, _, _) => {}
            Node::NewArray(_, _, _) => {}
            Node::Unary(_, _, _) => {}
            Node::Chain(_, _, _) => {}
            Node::Part(_, _, _) => {}
            Node::TypePart(_, _, _) => {}
            Node::Postfix(_, _, _) => {}
            Node::Member(_, _) => {}
            Node::Index(_, _) => {}
            Node::Call(_, _) => {}
        }
    }
}
