// The children of a node.
ghost use Rattle.std.specs.Prelude.{◌≡◌, true, List, ℕ, length, map};
ghost use Rattle.std.specs.Option.{option_map};
ghost use Rattle.vg_syntax.specs.Outline.{Inner, outline};
ghost use Rattle.vg_tree.specs.Held.{node_at};
ghost use Rattle.vg_tree_walks.specs.Children.{children_of, kids_at, has_number, weight_of};

use vg_tree::Node;

/// The children of a node, in order of the text. A row, a pair and a leaf have none.
pub fn children(node: &Node) -> [Option<&Node>; 4]
    ensures four { length result ≡ 4 }
    ensures all { map (option_map (λ kid. kid.now)) result ≡ children_of node.now }
    ensures outline { has_number node.now ≡ true → (texts : List (List ℕ))
        → outline (node_at texts node.now) ≡ Inner 0 (weight_of node.now) (outline (kids_at texts (map (option_map (λ kid. kid.now)) result))) }
{
    four_places(node)
}

// A place for each of at most four children.
fn four_places(node: &Node) -> [Option<&Node>; 4]
    ensures four { length result ≡ 4 }
    ensures all { map (option_map (λ kid. kid.now)) result ≡ children_of node.now }
{
    match node {
        Node::Text(_, a) => [Some(a), None, None, None],
        Node::ClassDecl(_, _, _, a) => [Some(a), None, None, None],
        Node::ComponentDecl(_, _, a) => [Some(a), None, None, None],
        Node::DeviceDecl(_, _, a) => [Some(a), None, None, None],
        Node::ProgramDecl(_, _, a) => [Some(a), None, None, None],
        Node::FieldDecl(_, _, _, a) => [Some(a), None, None, None],
        Node::MethodDecl(_, _, _, _, a) => [Some(a), None, None, None],
        Node::ConstructorDecl(_, _, _, a, b) => [Some(a), Some(b), None, None],
        Node::Block(_, a) => [Some(a), None, None, None],
        Node::Local(_, _, _, a) => [Some(a), None, None, None],
        Node::If(_, a, b) => [Some(a), Some(b), None, None],
        Node::While(_, a, b) => [Some(a), Some(b), None, None],
        Node::For(_, a, b, c, d) => [Some(a), Some(b), Some(c), Some(d)],
        Node::Return(_, a) => [Some(a), None, None, None],
        Node::Assign(_, a, b) => [Some(a), Some(b), None, None],
        Node::Eval(_, a) => [Some(a), None, None, None],
        Node::NewObject(_, _, a) => [Some(a), None, None, None],
        Node::NewArray(_, _, a) => [Some(a), None, None, None],
        Node::Unary(_, _, a) => [Some(a), None, None, None],
        Node::Chain(_, a, b) => [Some(a), Some(b), None, None],
        Node::Part(_, _, a) => [Some(a), None, None, None],
        Node::Postfix(_, a, b) => [Some(a), Some(b), None, None],
        Node::Index(_, a) => [Some(a), None, None, None],
        Node::Call(_, a) => [Some(a), None, None, None],
        Node::Nothing | Node::Row(_) | Node::Arms(_) | Node::Pair(_, _) => {
            [None, None, None, None]
        }
        Node::RegisterDecl(_, _, _)
        | Node::EntryDecl(_, _, _, _)
        | Node::Break(_)
        | Node::Continue(_)
        | Node::Number(_, _)
        | Node::CharLiteral(_, _)
        | Node::StringLiteral(_, _)
        | Node::True(_)
        | Node::False(_)
        | Node::Null(_)
        | Node::This(_)
        | Node::Name(_, _)
        | Node::TypePart(_, _, _)
        | Node::Member(_, _) => [None, None, None, None],
    }
}
