// How large a part of a tree is.
ghost use Rattle.std.specs.Prelude.{◌≡◌, ◌<◌, ◌+◌, ◌^◌, true, ℕ, List, []};
ghost use Rattle.std.specs.Option.{option_map};
ghost use Rattle.vg_syntax.specs.Numbering.{count_nodes};
ghost use Rattle.vg_syntax.specs.Tree.{Nothing};
ghost use Rattle.vg_tree.specs.Held.{node_at, arm_at};
ghost use Rattle.vg_tree_walks.specs.Children.{has_number, kid_at};
ghost use Rattle.vg_types_counts.specs.Extents.{measured, empty, beside, around, own_local, IsExtent};

use vg_tree::Node;
use vg_tree_walks::children::children;

/// What is measured of a node and all below it.
#[derive(Clone, Copy, Debug, PartialEq, Eq)]
pub(crate) struct Extent {
    pub nodes: u32,
    pub locals: u32,
    /// The levels of nodes above one another.
    pub height: u32,
}

/// How many nodes there are at and below a node, or in a row.
pub fn count_nodes(node: &Node) -> u32
    requires { count_nodes (node_at [] node.now) < 2 ^ 32 }
    ensures { (texts : List (List ℕ)) → result ≡ count_nodes (node_at texts node.now) }
{
    measure(node).nodes
}

/// What is measured of a node and all below it, or of a row.
#[cycle(measure)]
pub(crate) fn measure(node: &Node) -> Extent
    requires { count_nodes (node_at [] node.now) < 2 ^ 32 }
    ensures measured { (texts : List (List ℕ)) → result ≡ measured (node_at texts node.now) }
    ensures sound { IsExtent result }
{
    match node {
        Node::Nothing | Node::Pair(_, _) => empty(),
        Node::Row(nodes) => {
            let mut all = empty();
            'row: for node in nodes.as_slice() {
                all = beside(all, measure(node));
            }
            all
        }
        Node::Arms(nodes) => {
            let mut all = empty();
            'arms: for node in nodes.as_slice() {
                all = beside(all, arm_extent(node));
            }
            all
        }
        _ => inner_extent(node),
    }
}

// What is measured of a node that has a number.
#[cycle(measure)]
fn inner_extent(node: &Node) -> Extent
    requires numbered { has_number node.now ≡ true }
    requires room { count_nodes (node_at [] node.now) < 2 ^ 32 }
    ensures measured { (texts : List (List ℕ)) → result ≡ measured (node_at texts node.now) }
    ensures sound { IsExtent result }
{
    let mut all = empty();
    'children: for child in children(node) {
        all = beside(all, kid_extent(child));
    }
    around(own_local(node), all)
}

// What is measured of a child, where there is one.
#[cycle(measure)]
fn kid_extent(child: Option<&Node>) -> Extent
    requires { count_nodes (kid_at [] (option_map (λ kid. kid.now) child)) < 2 ^ 32 }
    ensures measured { (texts : List (List ℕ)) → result ≡ measured (kid_at texts (option_map (λ kid. kid.now) child.entry)) }
    ensures sound { IsExtent result }
{
    match child {
        None => empty(),
        Some(node) => measure(node),
    }
}

// What is measured of a pair, where the node is one.
#[cycle(measure)]
fn arm_extent(node: &Node) -> Extent
    requires { count_nodes (arm_at [] node.now Nothing) < 2 ^ 32 }
    ensures measured { (texts : List (List ℕ)) → result ≡ measured (arm_at texts node.now Nothing) }
    ensures sound { IsExtent result }
{
    match node {
        Node::Pair(condition, block) => beside(measure(condition), beside(measure(block), empty())),
        _ => empty(),
    }
}

// 1 for a local.
fn own_local(node: &Node) -> u32
    ensures { result ≡ own_local node.now }
{
    match node {
        Node::Local(_, _, _, _) => 1,
        _ => 0,
    }
}

fn empty() -> Extent
    ensures measured { result ≡ empty }
    ensures sound { IsExtent result }
{
    Extent {
        nodes: 0,
        locals: 0,
        height: 0,
    }
}

/// What is measured of two parts beside one another.
pub(crate) fn beside(first: Extent, rest: Extent) -> Extent
    requires room { first.nodes + rest.nodes < 2 ^ 32 }
    requires first { IsExtent first }
    requires rest { IsExtent rest }
    ensures measured { result ≡ beside first rest }
    ensures sound { IsExtent result }
{
    Extent {
        nodes: first.nodes + rest.nodes,
        locals: first.locals + rest.locals,
        height: first.height.max(rest.height),
    }
}

// What is measured of a node around its children.
fn around(own: u32, children: Extent) -> Extent
    requires room { 1 + children.nodes < 2 ^ 32 }
    requires own { own < 2 }
    requires children { IsExtent children }
    ensures measured { result ≡ around own children }
    ensures sound { IsExtent result }
{
    Extent {
        nodes: 1 + children.nodes,
        locals: own + children.locals,
        height: 1 + children.height,
    }
}
