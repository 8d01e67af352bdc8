// Where a class stands.
ghost use Rattle.std.specs.Prelude.{◌≡◌, ◌<◌, ◌+◌, ◌^◌, ℕ, List, [], IfSome, is_some};
ghost use Rattle.std.specs.Option.{option_map};
ghost use Rattle.vg_syntax.specs.Numbering.{count_nodes, numbered};
ghost use Rattle.vg_tree.specs.Held.{text_at, node_at, row_at};
ghost use Rattle.vg_tree_walks.specs.Lookups.{IsOnly, class_in, first_class};
ghost use Rattle.vg_tree_walks.specs.Classes.{names_class, is_row, is_text};

use crate::walk::{pass, walk_from};
use vg_base::{Name, NodeId};
use vg_tree::Node;

// The first class of this name in a row of declarations, the first of which has the number 1.
pub(crate) fn class_in(declarations: &Node, name: Name) -> Option<NodeId>
    requires { 1 + count_nodes (node_at [] declarations.now) < 2 ^ 32 }
    ensures { (texts : List (List ℕ)) → IsOnly texts name → option_map (λ id. id.0) result
        ≡ class_in (text_at texts name) (numbered 1 (node_at texts declarations.now)) }
{
    let row = match row_of(declarations) {
        None => return None,
        Some(row) => row,
    };
    let mut next = 1;
    for declaration in row {
        if is_class(declaration, name) {
            return Some(NodeId(next));
        }
        next = pass(declaration, walk_from(next), 0).next;
    }
    None
}

// The declarations of a text.
pub(crate) fn declarations_of(root: &Node) -> Option<&Node>
    ensures some { is_some result ≡ is_text root.now }
    ensures first { IfSome result (λ row. (texts : List (List ℕ)) (name : List ℕ)
        → first_class name (numbered 0 (node_at texts root.now)) ≡ class_in name (numbered 1 (node_at texts row.now))) }
    ensures count { IfSome result (λ row. 1 + count_nodes (node_at [] row.now) ≡ count_nodes (node_at [] root.now)) }
{
    match root {
        Node::Text(_, declarations) => Some(declarations),
        _ => None,
    }
}

// The nodes of a row.
fn row_of(node: &Node) -> Option<&[Node]>
    ensures some { is_some result ≡ is_row node.now }
    ensures nodes { IfSome result (λ nodes. (texts : List (List ℕ)) → node_at texts node.now ≡ row_at texts nodes.now) }
{
    match node {
        Node::Row(nodes) => Some(nodes.as_slice()),
        _ => None,
    }
}

// Whether a node is the declaration of a class of this name.
fn is_class(node: &Node, name: Name) -> bool
    ensures { result ≡ names_class name node.now }
{
    match node {
        Node::ClassDecl(_, other, _, _) => *other == name,
        _ => false,
    }
}
