// How many locals a part of a tree declares.
ghost use Rattle.std.specs.Prelude.{◌≡◌, ◌<◌, ◌^◌, true, ℕ, List, []};
ghost use Rattle.std.specs.Option.{option_map};
ghost use Rattle.vg_syntax.specs.Tree.{Nothing};
ghost use Rattle.vg_tree.specs.Held.{node_at, arm_at};
ghost use Rattle.vg_tree_walks.specs.Children.{has_number, kid_at};
ghost use Rattle.vg_types_counts.specs.Extents.{locals_in, own_local};

use vg_tree::Node;
use vg_tree_walks::children::children;

/// The locals that are declared at and below a node, or in a row.
#[cycle(count_locals)]
pub(crate) fn count_locals(node: &Node) -> u32
    requires room { locals_in (node_at [] node.now) < 2 ^ 32 }
    ensures count { (texts : List (List ℕ)) → result ≡ locals_in (node_at texts node.now) }
{
    match node {
        Node::Nothing | Node::Pair(_, _) => 0,
        Node::Row(nodes) => {
            let mut all = 0;
            'row: for node in nodes.as_slice() {
                all += count_locals(node);
            }
            all
        }
        Node::Arms(nodes) => {
            let mut all = 0;
            'arms: for node in nodes.as_slice() {
                all += arm_locals(node);
            }
            all
        }
        _ => inner_locals(node),
    }
}

// Those of a node that has a number.
#[cycle(count_locals)]
fn inner_locals(node: &Node) -> u32
    requires numbered { has_number node.now ≡ true }
    requires room { locals_in (node_at [] node.now) < 2 ^ 32 }
    ensures count { (texts : List (List ℕ)) → result ≡ locals_in (node_at texts node.now) }
{
    let mut all = own_local(node);
    'children: for child in children(node) {
        all += kid_locals(child);
    }
    all
}

// Those of a child, where there is one.
#[cycle(count_locals)]
fn kid_locals(child: Option<&Node>) -> u32
    requires room { locals_in (kid_at [] (option_map (λ kid. kid.now) child)) < 2 ^ 32 }
    ensures count { (texts : List (List ℕ)) → result ≡ locals_in (kid_at texts (option_map (λ kid. kid.now) child.entry)) }
{
    match child {
        None => 0,
        Some(node) => count_locals(node),
    }
}

// Those of a pair, where the node is one.
#[cycle(count_locals)]
fn arm_locals(node: &Node) -> u32
    requires room { locals_in (arm_at [] node.now Nothing) < 2 ^ 32 }
    ensures count { (texts : List (List ℕ)) → result ≡ locals_in (arm_at texts node.now Nothing) }
{
    match node {
        Node::Pair(condition, block) => count_locals(condition) + count_locals(block),
        _ => 0,
    }
}

// 1 for a local.
fn own_local(node: &Node) -> u32
    ensures { result ≡ own_local node.now }
{
    match node {
        Node::Local(_, _, _, _) => 1,
        _ => 0,
    }
}
