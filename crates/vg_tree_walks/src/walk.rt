// How a tree is walked: each node before its children, and those in order of the text.
ghost use Rattle.std.specs.Prelude.{◌≡◌, ◌≤◌, ◌<◌, ◌+◌, ◌-◌, ◌^◌, ◌==◌, true, [], if◌then◌else◌};
ghost use Rattle.std.specs.Option.{option_map};
ghost use Rattle.vg_syntax.specs.Outline.{outline, size, total};
ghost use Rattle.vg_syntax.specs.Numbering.{count_code, count_nodes};
ghost use Rattle.vg_syntax.specs.Tree.{Nothing};
ghost use Rattle.vg_tree.specs.Held.{node_at, arm_at};
ghost use Rattle.vg_tree_walks.specs.Children.{has_number, weight_of, kid_at};
ghost use Rattle.vg_tree_walks.specs.Walks.{IsWalk, found, weight};

use crate::children::children;
use vg_tree::Node;

/// Whether a node is a statement or an expression.
#[derive(Clone, Copy, Debug, PartialEq, Eq)]
pub(crate) enum Counted {
    Declaration,
    Code,
}

/// How far a walk has come.
#[derive(Clone, Copy, Debug, PartialEq, Eq)]
pub(crate) struct Walk {
    /// The number of the next node.
    pub next: u32,
    /// How many statements and expressions were passed.
    pub code: u32,
    /// How many of them stand at or below the node that is looked for.
    pub found: u32,
}

/// A walk that is about to pass the node of this number.
pub(crate) fn walk_from(next: u32) -> Walk
    ensures next { result.next ≡ next }
    ensures code { result.code ≡ 0 }
    ensures found { result.found ≡ 0 }
{
    Walk {
        next,
        code: 0,
        found: 0,
    }
}

// Whether a node is a statement or an expression.
fn sort_of(node: &Node) -> Counted
    ensures { weight result ≡ weight_of node.now }
{
    match node {
        Node::Text(_, _)
        | Node::ClassDecl(_, _, _, _)
        | Node::ComponentDecl(_, _, _)
        | Node::DeviceDecl(_, _, _)
        | Node::RegisterDecl(_, _, _)
        | Node::ProgramDecl(_, _, _)
        | Node::EntryDecl(_, _, _, _)
        | Node::FieldDecl(_, _, _, _)
        | Node::MethodDecl(_, _, _, _, _)
        | Node::ConstructorDecl(_, _, _, _, _) => Counted::Declaration,
        _ => Counted::Code,
    }
}

/// The walk behind a node and all below it.
#[cycle(pass)]
pub(crate) fn pass(node: &Node, so_far: Walk, target: u32) -> Walk
    requires room { so_far.next + count_nodes (node_at [] node.now) < 2 ^ 32 }
    requires sound { IsWalk so_far }
    ensures next { result.next ≡ so_far.next + count_nodes (node_at [] node.now) }
    ensures code { result.code ≡ so_far.code + count_code (node_at [] node.now) }
    ensures found { result.found ≡ so_far.found + found so_far.next target (outline (node_at [] node.now)) }
    ensures sound { IsWalk result }
{
    match node {
        Node::Nothing | Node::Pair(_, _) => so_far,
        Node::Row(nodes) => {
            let mut passed = so_far;
            'row: for node in nodes.as_slice() {
                passed = pass(node, passed, target);
            }
            passed
        }
        Node::Arms(nodes) => {
            let mut passed = so_far;
            'arms: for node in nodes.as_slice() {
                passed = pass_arm(node, passed, target);
            }
            passed
        }
        _ => pass_inner(node, so_far, target),
    }
}

// The walk behind a node that has a number, and all below it.
#[cycle(pass)]
fn pass_inner(node: &Node, so_far: Walk, target: u32) -> Walk
    requires numbered { has_number node.now ≡ true }
    requires room { so_far.next + count_nodes (node_at [] node.now) < 2 ^ 32 }
    requires sound { IsWalk so_far }
    ensures next { result.next ≡ so_far.next + count_nodes (node_at [] node.now) }
    ensures code { result.code ≡ so_far.code + count_code (node_at [] node.now) }
    ensures found { result.found ≡ so_far.found + found so_far.next target (outline (node_at [] node.now)) }
    ensures sound { IsWalk result }
{
    let mut passed = begun(so_far, sort_of(node));
    'children: for child in children(node) {
        passed = pass_child(child, passed, target);
    }
    ended(so_far, passed, target)
}

// The walk behind a child, where there is one.
#[cycle(pass)]
fn pass_child(child: Option<&Node>, so_far: Walk, target: u32) -> Walk
    requires room { so_far.next + size (outline (kid_at [] (option_map (λ kid. kid.now) child))) < 2 ^ 32 }
    requires sound { IsWalk so_far }
    ensures next { result.next ≡ so_far.next + size (outline (kid_at [] (option_map (λ kid. kid.now) child.entry))) }
    ensures code { result.code ≡ so_far.code + total (outline (kid_at [] (option_map (λ kid. kid.now) child.entry))) }
    ensures found { result.found ≡ so_far.found + found so_far.next target (outline (kid_at [] (option_map (λ kid. kid.now) child.entry))) }
    ensures sound { IsWalk result }
{
    match child {
        None => so_far,
        Some(node) => pass(node, so_far, target),
    }
}

// The walk behind a pair, where the node is one.
#[cycle(pass)]
fn pass_arm(node: &Node, so_far: Walk, target: u32) -> Walk
    requires room { so_far.next + count_nodes (arm_at [] node.now Nothing) < 2 ^ 32 }
    requires sound { IsWalk so_far }
    ensures next { result.next ≡ so_far.next + count_nodes (arm_at [] node.now Nothing) }
    ensures code { result.code ≡ so_far.code + count_code (arm_at [] node.now Nothing) }
    ensures found { result.found ≡ so_far.found + found so_far.next target (outline (arm_at [] node.now Nothing)) }
    ensures sound { IsWalk result }
{
    match node {
        Node::Pair(condition, block) => pass(block, pass(condition, so_far, target), target),
        _ => so_far,
    }
}

// The walk that has passed a node, and none below it.
fn begun(so_far: Walk, counted: Counted) -> Walk
    requires room { so_far.next + 1 < 2 ^ 32 }
    requires sound { IsWalk so_far }
    ensures next { result.next ≡ so_far.next + 1 }
    ensures code { result.code ≡ so_far.code + weight counted }
    ensures found { result.found ≡ so_far.found }
    ensures sound { IsWalk result }
{
    Walk {
        next: so_far.next + 1,
        code: match counted {
            Counted::Declaration => so_far.code,
            Counted::Code => so_far.code + 1,
        },
        found: so_far.found,
    }
}

// The walk behind a node, where `below` has passed it and all below it.
fn ended(so_far: Walk, below: Walk, target: u32) -> Walk
    requires later { so_far.code ≤ below.code }
    requires sound { IsWalk below }
    requires before { IsWalk so_far }
    ensures next { result.next ≡ below.next }
    ensures code { result.code ≡ below.code }
    ensures found { result.found ≡ (if so_far.next == target then so_far.found + (below.code - so_far.code) else below.found) }
    ensures sound { IsWalk result }
{
    if so_far.next == target {
        Walk {
            next: below.next,
            code: below.code,
            found: so_far.found + (below.code - so_far.code),
        }
    } else {
        below
    }
}
