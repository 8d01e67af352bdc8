// Rows, and what they begin with.
ghost use Rattle.std.specs.Prelude.{◌≡◌, ℕ, List, IfSome, IfNone, false};
ghost use Rattle.vg_syntax.specs.Numbering.{numbered};
ghost use Rattle.vg_syntax.specs.Reads.{spot};
ghost use Rattle.vg_syntax.specs.Tree.{Node as SpecNode, Then, Name as NameNode};
ghost use Rattle.vg_tree.specs.Held.{node_at, row_at, text_at};
ghost use Rattle.vg_types_expressions.specs.Nodes.{begins_with_member, is_name};

use vg_base::{Name, Place};
use vg_tree::Node;

/// The nodes of a row.
pub(crate) fn row_of(node: &Node) -> Option<&[Node]>
    ensures { IfSome result (λ nodes. (texts : List (List ℕ)) → node_at texts node.now ≡ row_at texts nodes.now) }
{
    match node {
        Node::Row(nodes) => Some(nodes.as_slice()),
        _ => None,
    }
}

/// Whether a row begins with a Member suffix.
pub(crate) fn begins_with_member(nodes: &[Node]) -> bool
    ensures { (texts : List (List ℕ)) (i : ℕ) → result ≡ begins_with_member (numbered i (row_at texts nodes.now)) }
{
    match nodes.first() {
        Some(first) => is_member(first),
        None => false,
    }
}

// Whether a node is a Member suffix.
fn is_member(node: &Node) -> bool
    ensures { (texts : List (List ℕ)) (i : ℕ) (rest : SpecNode) → result ≡ begins_with_member (Then (numbered i (node_at texts node.now)) rest) }
{
    match node {
        Node::Member(_, _) => true,
        _ => false,
    }
}

/// A name, where a node is one.
pub(crate) fn as_name(node: &Node) -> Option<(Place, Name)>
    ensures some { IfSome result (λ n. (texts : List (List ℕ)) → node_at texts node.now ≡ NameNode (spot n.0) (text_at texts n.1)) }
    ensures none { IfNone result ((texts : List (List ℕ)) (i : ℕ) → is_name (numbered i (node_at texts node.now)) ≡ false) }
{
    match node {
        Node::Name(place, name) => Some((*place, *name)),
        _ => None,
    }
}
