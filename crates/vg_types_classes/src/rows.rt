// The rows of a tree.
ghost use Rattle.std.specs.Prelude.{◌≡◌, ◌+◌, ℕ, List, [], IfSome};
ghost use Rattle.vg_syntax.specs.Numbering.{count_nodes};
ghost use Rattle.vg_syntax.specs.Tree.{Text};
ghost use Rattle.vg_tree.specs.Held.{node_at, row_at};
ghost use Rattle.vg_tree_walks.specs.Whole.{tree_at, node_count};
ghost use Rattle.vg_types_classes.specs.Classes.{declarations_in, text_spot};

use vg_tree::Node;
use vg_tree_walks::Tree;

/// The declarations of a text. A tree that no text has may have none.
pub fn declared_nodes(tree: &Tree) -> Option<&[Node]>
    ensures nodes { IfSome result (λ nodes. (texts : List (List ℕ))
        → tree_at texts tree.now ≡ Text (text_spot tree.now.root) (declarations_in texts nodes.now)) }
    ensures count { IfSome result (λ nodes. 1 + count_nodes (row_at [] nodes.now) ≡ node_count tree.now) }
{
    match &tree.root {
        Node::Text(_, declarations) => row_of(declarations),
        _ => None,
    }
}

/// The nodes of a row.
pub fn row_of(node: &Node) -> Option<&[Node]>
    ensures { IfSome result (λ nodes. (texts : List (List ℕ)) → node_at texts node.now ≡ row_at texts nodes.now) }
{
    match node {
        Node::Row(nodes) => Some(nodes.as_slice()),
        _ => None,
    }
}
