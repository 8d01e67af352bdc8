// The walk through a text.
ghost use Rattle.std.specs.Prelude.{◌≡◌, ◌<◌, ◌+◌, ◌^◌, true, false, [], IfOk, OnOk};
ghost use Rattle.std.specs.Option.{option_map};
ghost use Rattle.vg_syntax.specs.Numbering.{count_nodes, numbered};
ghost use Rattle.vg_syntax.specs.Reads.{spot};
ghost use Rattle.vg_syntax.specs.Tree as tree;
ghost use Rattle.vg_syntax.specs.Tree.{Nothing};
ghost use Rattle.vg_tree.specs.Held.{text_at, node_at, row_at, arm_at, arm_row};
ghost use Rattle.vg_tree_walks.specs.Children.{has_number, kid_at};
ghost use Rattle.vg_source.specs.Nodes.{literal_nodes, literals};
ghost use Rattle.vg_types_literals.specs.Found.{seen, behind, is_literal};

use crate::finding::first_search;
use crate::search::Search;
use crate::spelled::bytes_of;
use indexmap::IndexSet;
use std::alloc::Global;
use vg_base::{Name, Names, NoMemory, Place, Row};
use vg_tree::Node;
use vg_tree_walks::children::children;
use vg_types_views::text_of;

/// The string literals of a text, in order of the text: their nodes, and their bytes.
#[derive(Drop)]
pub struct Literals {
    pub nodes: IndexSet<u32>,
    pub texts: Row<Row<u8>>,
}

/// The string literals of declarations, the first of which has the number 1. It takes time in proportion to the tree.
pub fn literals_of(alloc: Global, names: &Names, root: &Node) -> Result<Literals, NoMemory>
    requires { 1 + count_nodes (node_at [] root.now) < 2 ^ 32 }
    ensures nodes { IfOk result (λ found. found.nodes.keys ≡ literal_nodes (numbered 1 (node_at names.now root.now))) }
    ensures texts { IfOk result (λ found. found.texts ≡ literals (numbered 1 (node_at names.now root.now))) }
{
    let mut search = first_search(alloc);
    pass(alloc, names, root, &mut search)?;
    Ok(Literals {
        nodes: search.nodes,
        texts: search.texts,
    })
}

// Past a node and all below it.
#[cycle(pass)]
fn pass(alloc: Global, names: &Names, node: &Node, search: &mut Search) -> Result<(), NoMemory>
    requires { search.old.next + count_nodes (node_at [] node.now) < 2 ^ 32 }
    ensures { OnOk result (seen search.new ≡ behind (node_at names.now node.now) (seen search.old)) }
{
    match node {
        Node::Nothing | Node::Pair(_, _) => Ok(()),
        Node::Row(nodes) => pass_row(alloc, names, nodes.as_slice(), search),
        Node::Arms(nodes) => pass_arms(alloc, names, nodes.as_slice(), search),
        Node::StringLiteral(place, spelled) => pass_literal(alloc, names, *place, *spelled, search),
        _ => pass_inner(alloc, names, node, search),
    }
}

// Past a row of nodes.
#[cycle(pass)]
fn pass_row(
    alloc: Global,
    names: &Names,
    nodes: &[Node],
    search: &mut Search,
) -> Result<(), NoMemory>
    requires { search.old.next + count_nodes (row_at [] nodes.now) < 2 ^ 32 }
    ensures { OnOk result (seen search.new ≡ behind (row_at names.now nodes.now) (seen search.old)) }
{
    'row: for node in nodes {
        pass(alloc, names, node, search)?;
    }
    Ok(())
}

// Past a row of pairs.
#[cycle(pass)]
fn pass_arms(
    alloc: Global,
    names: &Names,
    nodes: &[Node],
    search: &mut Search,
) -> Result<(), NoMemory>
    requires { search.old.next + count_nodes (arm_row [] nodes.now) < 2 ^ 32 }
    ensures { OnOk result (seen search.new ≡ behind (arm_row names.now nodes.now) (seen search.old)) }
{
    'arms: for node in nodes {
        pass_arm(alloc, names, node, search)?;
    }
    Ok(())
}

// Past a pair, where the node is one.
#[cycle(pass)]
fn pass_arm(alloc: Global, names: &Names, node: &Node, search: &mut Search) -> Result<(), NoMemory>
    requires { search.old.next + count_nodes (arm_at [] node.now Nothing) < 2 ^ 32 }
    ensures { OnOk result (seen search.new ≡ behind (arm_at names.now node.now Nothing) (seen search.old)) }
{
    match node {
        Node::Pair(condition, block) => {
            pass(alloc, names, condition, search)?;
            pass(alloc, names, block, search)
        }
        _ => Ok(()),
    }
}

// Past a string literal.
fn pass_literal(
    alloc: Global,
    names: &Names,
    place: Place,
    spelled: Name,
    search: &mut Search,
) -> Result<(), NoMemory>
    requires { search.old.next + 1 < 2 ^ 32 }
    ensures { OnOk result (seen search.new ≡ behind (tree.StringLit (spot place) (text_at names.now spelled)) (seen search.old)) }
{
    let bytes = bytes_of(alloc, text_of(names, spelled))?;
    search.add(bytes)
}

// Past a node that is no string literal, and all below it.
#[cycle(pass)]
fn pass_inner(
    alloc: Global,
    names: &Names,
    node: &Node,
    search: &mut Search,
) -> Result<(), NoMemory>
    requires numbered { has_number node.now ≡ true }
    requires other { is_literal node.now ≡ false }
    requires room { search.old.next + count_nodes (node_at [] node.now) < 2 ^ 32 }
    ensures { OnOk result (seen search.new ≡ behind (node_at names.now node.now) (seen search.old)) }
{
    search.pass();
    'children: for child in children(node) {
        pass_child(alloc, names, child, search)?;
    }
    Ok(())
}

// Past a child, where there is one.
#[cycle(pass)]
fn pass_child(
    alloc: Global,
    names: &Names,
    child: Option<&Node>,
    search: &mut Search,
) -> Result<(), NoMemory>
    requires { search.old.next + count_nodes (kid_at [] (option_map (λ kid. kid.now) child)) < 2 ^ 32 }
    ensures { OnOk result (seen search.new ≡ behind (kid_at names.now (option_map (λ kid. kid.now) child.entry)) (seen search.old)) }
{
    match child {
        None => Ok(()),
        Some(node) => pass(alloc, names, node, search),
    }
}
