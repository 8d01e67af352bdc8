// From the number of a node to its place.
ghost use Rattle.std.specs.Prelude.{◌≡◌, false, ◌-◌, ℕ, List};
ghost use Rattle.std.specs.Option.{option_map};
ghost use Rattle.vg_syntax.specs.Tree.{Nothing};
ghost use Rattle.vg_tree.specs.Held.{node_at, arm_at};
ghost use Rattle.vg_tree_walks.specs.Whole.{tree_at};
ghost use Rattle.vg_places.specs.Places.{place_at, spots};
ghost use Rattle.vg_places.specs.Search.{after, after_one, kid_spots, is_row_node};

use crate::parts::parts_of;
use vg_base::{NodeId, Place};
use vg_tree::Node;
use vg_tree_walks::Tree;

/// How far a search has come.
#[derive(Clone, Copy, Debug, PartialEq, Eq)]
pub(crate) struct Search {
    /// How many nodes come before the one that is looked for.
    pub before: u32,
    /// Its place.
    pub found: Option<Place>,
}

/// The place of the node of this number in a tree: that of its first token, but for a part of a chain, where it is that of the operator.
///
/// It takes no memory, and time in proportion to the tree.
pub fn place_of(tree: &Tree, node: NodeId) -> Option<Place>
    ensures { (texts : List (List ℕ)) → result ≡ place_at node.0 (tree_at texts tree.now) }
{
    let start = Search {
        before: node.0,
        found: None,
    };
    pass(&tree.root, start).found
}

// The search behind a node and all below it.
#[cycle(pass)]
fn pass(node: &Node, so_far: Search) -> Search
    ensures { (texts : List (List ℕ)) → result ≡ after so_far (spots (node_at texts node.now)) }
{
    match node {
        Node::Row(nodes) => {
            let mut passed = so_far;
            'row: for node in nodes.as_slice() {
                passed = pass(node, passed);
            }
            passed
        }
        Node::Arms(nodes) => {
            let mut passed = so_far;
            'arms: for node in nodes.as_slice() {
                passed = pass_arm(node, passed);
            }
            passed
        }
        _ => pass_inner(node, so_far),
    }
}

// The search behind a node that is no row, and all below it.
#[cycle(pass)]
fn pass_inner(node: &Node, so_far: Search) -> Search
    requires { is_row_node node.now ≡ false }
    ensures { (texts : List (List ℕ)) → result ≡ after so_far (spots (node_at texts node.now)) }
{
    match parts_of(node) {
        None => so_far,
        Some(parts) => {
            let first = pass_child(parts.first, one_more(so_far, parts.place));
            let second = pass_child(parts.second, first);
            let third = pass_child(parts.third, second);
            pass_child(parts.fourth, third)
        }
    }
}

// The search behind a child, where there is one.
#[cycle(pass)]
fn pass_child(child: Option<&Node>, so_far: Search) -> Search
    ensures { (texts : List (List ℕ)) → result ≡ after so_far (kid_spots texts (option_map (λ kid. kid.now) child.entry)) }
{
    match child {
        None => so_far,
        Some(node) => pass(node, so_far),
    }
}

// The search behind a pair, where the node is one.
#[cycle(pass)]
fn pass_arm(node: &Node, so_far: Search) -> Search
    ensures { (texts : List (List ℕ)) → result ≡ after so_far (spots (arm_at texts node.now Nothing)) }
{
    match node {
        Node::Pair(condition, block) => pass(block, pass(condition, so_far)),
        _ => so_far,
    }
}

// The search behind one more node.
fn one_more(so_far: Search, place: Place) -> Search
    ensures { result ≡ after_one so_far so_far.found place }
{
    match so_far.found {
        Some(_) => so_far,
        None => {
            if so_far.before == 0 {
                Search {
                    before: 0,
                    found: Some(place),
                }
            } else {
                Search {
                    before: so_far.before - 1,
                    found: None,
                }
            }
        }
    }
}
