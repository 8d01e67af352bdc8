// The pass over what each declaration says for itself.
ghost use Rattle.std.specs.Prelude.{◌≡◌, ◌<◌, ◌+◌, ◌^◌, [], None};
ghost use Rattle.std.specs.Option.{option_map};
ghost use Rattle.vg_syntax.specs.Numbering.{count_nodes, numbered};
ghost use Rattle.vg_tree.specs.Held.{text_at, node_at, row_at};
ghost use Rattle.vg_tree_walks.specs.Whole.{tree_at, node_count};
ghost use Rattle.vg_rules.specs.Signatures.{home_of, signatures_breach};
ghost use Rattle.vg_types_views.specs.Judges.{Judges};
ghost use Rattle.vg_types_names.specs.Declarations.{IsMapOf, names_part};
ghost use Rattle.vg_types_classes.specs.Classes.{declarations_in, IsMapAt};
ghost use Rattle.vg_types_signatures.specs.Parts.{declared_part};
ghost use Rattle.vg_types_signatures.specs.Asked.{home_view, one_breach};

use crate::members::{Home, members};
use crate::registers::registers;
use std::alloc::Global;
use vg_base::{Name, Names, Refusal};
use vg_tree::Node;
use vg_tree_walks::Tree;
use vg_types_classes::{classes, declared_nodes};
use vg_types_counts::count_nodes;
use vg_types_names::Declaration;
use vg_types_views::{Broken, ByText};

/// The first breach of the rules on classes above one another and on what each declaration says for itself, where the names of
/// declarations keep the rules.
///
/// Each name is looked up in a map, so the time is about linear. A tree that no text has is answered by want of memory.
pub fn signatures(
    alloc: Global,
    names: &Names,
    tree: &Tree,
    declarations: &ByText<Declaration>,
) -> Result<(), Refusal<Broken>>
    requires room { node_count tree.now < 2 ^ 32 }
    requires named { names_part (tree_at names.now tree.now) ≡ None }
    requires map { IsMapOf (tree_at names.now tree.now) declarations.now }
    ensures { Judges (λ u. Unit {0}) result (declared_part (tree_at names.now tree.now)) }
{
    match declared_nodes(tree) {
        Some(nodes) => {
            classes(names, nodes, declarations)?;
            signatures_in(alloc, names, nodes, declarations)
        }
        // A tree that no text has.
        None => Err(Refusal::NoMemory),
    }
}

// The first breach in what these declarations say for themselves.
fn signatures_in(
    alloc: Global,
    names: &Names,
    nodes: &[Node],
    declarations: &ByText<Declaration>,
) -> Result<(), Refusal<Broken>>
    requires room { 1 + count_nodes (row_at [] nodes.now) < 2 ^ 32 }
    requires map { IsMapAt names.now nodes.now declarations.now }
    ensures { Judges (λ u. Unit {0}) result (signatures_breach (declarations_in names.now nodes.now) (declarations_in names.now nodes.now)) }
{
    let mut next = 1;
    'each: for node in nodes {
        one(alloc, names, nodes, declarations, node, next)?;
        next = next + count_nodes(node);
    }
    Ok(())
}

// The first breach in what a declaration of this number says for itself.
fn one(
    alloc: Global,
    names: &Names,
    nodes: &[Node],
    declarations: &ByText<Declaration>,
    declaration: &Node,
    id: u32,
) -> Result<(), Refusal<Broken>>
    requires room { id + count_nodes (node_at [] declaration.now) < 2 ^ 32 }
    requires map { IsMapAt names.now nodes.now declarations.now }
    ensures { Judges (λ u. Unit {0}) result
        (one_breach (declarations_in names.now nodes.now) (numbered id (node_at names.now declaration.now))) }
{
    match declaration {
        Node::ClassDecl(_, _, above, row) => {
            members(
                alloc,
                names,
                nodes,
                declarations,
                home_of(names, *above),
                row,
                id + 1,
            )
        }
        Node::ComponentDecl(_, _, row) => {
            members(
                alloc,
                names,
                nodes,
                declarations,
                Home::Component,
                row,
                id + 1,
            )
        }
        Node::DeviceDecl(_, _, row) => registers(alloc, names, row, id + 1),
        Node::ProgramDecl(_, _, _) => Ok(()),
        // A tree that no text has.
        _ => Err(Refusal::NoMemory),
    }
}

// Where the members of a class stand that extends this one.
fn home_of(names: &Names, above: Option<Name>) -> Home
    ensures { home_view result ≡ home_of (option_map (text_at names.now) above) }
{
    match above {
        Some(_) => Home::Subclass,
        None => Home::Class,
    }
}
