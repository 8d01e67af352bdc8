// Whether a node stands for nothing.
ghost use Rattle.std.specs.Prelude.{◌≡◌, List, ℕ};
ghost use Rattle.vg_tree.specs.Held.{node_at, arm_row};
ghost use Rattle.vg_tree.specs.Nothing.{is_nothing, is_pair};

use crate::Node;

/// Whether a node stands for nothing: it is none, or an empty row.
pub fn is_nothing(node: &Node) -> bool
    ensures { (texts : List (List ℕ)) → result ≡ is_nothing (node_at texts node.now) }
{
    match node {
        Node::Nothing => true,
        Node::Pair(_, _) => true,
        Node::Row(nodes) => nodes.is_empty(),
        Node::Arms(pairs) => has_no_pair(pairs.as_slice()),
        _ => false,
    }
}

// Whether a row of pairs has none.
fn has_no_pair(pairs: &[Node]) -> bool
    ensures { (texts : List (List ℕ)) → result ≡ is_nothing (arm_row texts pairs.now) }
{
    for pair in pairs {
        if is_pair(pair) {
            return false;
        }
    }
    true
}

// Whether a node is a pair.
fn is_pair(node: &Node) -> bool
    ensures { result ≡ is_pair node.now }
{
    match node {
        Node::Pair(_, _) => true,
        _ => false,
    }
}
