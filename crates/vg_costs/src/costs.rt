// The costs of the methods of a text.
ghost use Rattle.std.specs.Prelude.{◌≡◌, ◌<◌, ◌+◌, ◌*◌, ◌^◌, ◌++◌, ◌∷◌, ℕ, List, [], IfOk, IfSome, OnOk, is_some};
ghost use Rattle.vg_syntax.specs.Numbering.{count_nodes, numbered};
ghost use Rattle.vg_tree.specs.Held.{node_at, row_at};
ghost use Rattle.vg_tree_walks.specs.Whole.{tree_at};
ghost use Rattle.vg_source.specs.Peak.{costs};
ghost use Rattle.vg_source.specs.Program.{declarations_of};
ghost use Rattle.vg_types_counts.specs.Extents.{locals_in};
ghost use Rattle.vg_types_counts.specs.Tallies.{has_members, is_row, is_text};
ghost use Rattle.vg_costs.specs.Small.{AreSmall};
ghost use Rattle.vg_costs.specs.Walked.{cost_with, declared_cost, costs_of, member_costs, costs_in, is_method};

use crate::locals::count_locals;
use std::alloc::Global;
use vg_base::{NoMemory, Row};
use vg_tree::Node;
use vg_tree_walks::Tree;
use vg_types_counts::count_nodes;

/// The costs of the methods of a text, in order of the text. A method costs 32, and 4 for each parameter, each local and each node of its body,
/// the block itself among them.
///
/// The costs of a legal text of at most 262,144 bytes are small: `costs_are_small` says so. The row is the only memory that it takes, and its time
/// is in proportion to the tree.
pub fn method_costs(alloc: Global, tree: &Tree) -> Result<Row<u32>, NoMemory>
    requires small { AreSmall (costs (tree_at [] tree.now)) }
    ensures costs { (texts : List (List ℕ)) → IfOk result (λ row. row ≡ costs (tree_at texts tree.now)) }
{
    match declarations_of(&tree.root) {
        Some(declarations) => declared_costs(alloc, declarations),
        None => Ok(Row::new(alloc)),
    }
}

// The declarations of a text.
fn declarations_of(root: &Node) -> Option<&Node>
    ensures some { is_some result ≡ is_text root.now }
    ensures declarations { IfSome result (λ row. (texts : List (List ℕ))
        → declarations_of (numbered 0 (node_at texts root.now)) ≡ numbered 1 (node_at texts row.now)) }
{
    match root {
        Node::Text(_, declarations) => Some(declarations),
        _ => None,
    }
}

// The costs of the methods of declarations.
fn declared_costs(alloc: Global, declarations: &Node) -> Result<Row<u32>, NoMemory>
    requires small { AreSmall (costs_in (node_at [] declarations.now)) }
    ensures costs { (texts : List (List ℕ)) → IfOk result (λ row. row ≡ costs_in (node_at texts declarations.now)) }
{
    let mut row = Row::new(alloc);
    put_declarations(&mut row, declarations)?;
    Ok(row)
}

// Puts the costs of the methods of declarations behind the row.
fn put_declarations(row: &mut Row<u32>, declarations: &Node) -> Result<(), NoMemory>
    requires small { AreSmall (costs_in (node_at [] declarations.now)) }
    ensures costs { OnOk result ((texts : List (List ℕ)) → row.new ≡ row.old ++ costs_in (node_at texts declarations.now)) }
{
    let nodes = match row_of(declarations) {
        Some(nodes) => nodes,
        None => return Ok(()),
    };
    'each: for node in nodes {
        put_declaration(row, node)?;
    }
    Ok(())
}

// Puts the costs of the methods of a declaration behind the row.
fn put_declaration(row: &mut Row<u32>, declaration: &Node) -> Result<(), NoMemory>
    requires small { AreSmall (member_costs (node_at [] declaration.now)) }
    ensures costs { OnOk result ((texts : List (List ℕ)) → row.new ≡ row.old ++ member_costs (node_at texts declaration.now)) }
{
    match members_of(declaration) {
        Some(members) => put_members(row, members),
        None => Ok(()),
    }
}

// The members of a class or component.
fn members_of(declaration: &Node) -> Option<&Node>
    ensures some { is_some result ≡ has_members declaration.now }
    ensures members { IfSome result (λ members. (texts : List (List ℕ))
        → member_costs (node_at texts declaration.now) ≡ costs_of (node_at texts members.now)) }
{
    match declaration {
        Node::ClassDecl(_, _, _, members) => Some(members),
        Node::ComponentDecl(_, _, members) => Some(members),
        _ => None,
    }
}

// Puts the costs of the methods among members behind the row.
fn put_members(row: &mut Row<u32>, members: &Node) -> Result<(), NoMemory>
    requires small { AreSmall (costs_of (node_at [] members.now)) }
    ensures costs { OnOk result ((texts : List (List ℕ)) → row.new ≡ row.old ++ costs_of (node_at texts members.now)) }
{
    let nodes = match row_of(members) {
        Some(nodes) => nodes,
        None => return Ok(()),
    };
    'each: for node in nodes {
        put_member(row, node)?;
    }
    Ok(())
}

// Puts the cost of a member that is a method behind the row.
fn put_member(row: &mut Row<u32>, member: &Node) -> Result<(), NoMemory>
    requires small { AreSmall (declared_cost (node_at [] member.now)) }
    ensures costs { OnOk result ((texts : List (List ℕ)) → row.new ≡ row.old ++ declared_cost (node_at texts member.now)) }
{
    match method_of(member) {
        Some((params, body)) => row.push(cost_with(params, body)),
        None => Ok(()),
    }
}

// How many parameters a method has, and its body.
fn method_of(member: &Node) -> Option<(usize, &Node)>
    ensures some { is_some result ≡ is_method member.now }
    ensures cost { IfSome result (λ method. (texts : List (List ℕ))
        → declared_cost (node_at texts member.now) ≡ cost_with method.0 (node_at texts method.1.now) ∷ []) }
{
    match member {
        Node::MethodDecl(_, _, params, _, body) => Some((params.len(), body)),
        _ => None,
    }
}

// The cost of a method with so many parameters and this body.
fn cost_with(params: usize, body: &Node) -> u32
    requires small { cost_with params (node_at [] body.now) < 2 ^ 31 }
    ensures cost { (texts : List (List ℕ)) → result ≡ cost_with params (node_at texts body.now) }
{
    32 + 4 * (params as u32 + count_locals(body) + count_nodes(body))
}

// The nodes of a row.
fn row_of(node: &Node) -> Option<&[Node]>
    ensures some { is_some result ≡ is_row node.now }
    ensures nodes { IfSome result (λ nodes. (texts : List (List ℕ)) → node_at texts node.now ≡ row_at texts nodes.now) }
{
    match node {
        Node::Row(nodes) => Some(nodes.as_slice()),
        _ => None,
    }
}
