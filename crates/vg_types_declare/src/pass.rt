// The pass over declarations.
ghost use Rattle.std.specs.Prelude.{◌≡◌, ◌<◌, ◌+◌, ◌^◌, true, ℕ, List, [], None, IfOk};
ghost use Rattle.vg_syntax.specs.Numbering.{count_nodes};
ghost use Rattle.vg_tree.specs.Held.{node_at, row_at};
ghost use Rattle.vg_rules.specs.Signatures.{signatures_breach};
ghost use Rattle.vg_types_interned.specs.Types.{AreNumbered};
ghost use Rattle.vg_types_tables.specs.Views.{declarations_at};
ghost use Rattle.vg_types_tables.specs.Declares.{Declares};
ghost use Rattle.vg_types_inherited.specs.Dispatches.{Dispatches};
ghost use Rattle.vg_types_declared.specs.Apart.{have_members};
ghost use Rattle.vg_types_declared.specs.Named.{Keeps};
ghost use Rattle.vg_types_named.specs.Left.{Left};
ghost use Rattle.vg_types_declare.specs.Made.{AreHeads};

use crate::heads::parts_of;
use crate::made::{declared_of, lists_of};
use crate::members::have_members;
use crate::parts::Others;
use std::alloc::Global;
use vg_base::{Names, NoMemory, Row};
use vg_tree::Node;
use vg_types_heads::declared_heads;
use vg_types_hierarchy::above_numbers;
use vg_types_homes::declared_homes;
use vg_types_interned::{Types, intern_node};
use vg_types_literals::literals_of;
use vg_types_tables::Declared;
use vg_types_views::ByText;

/// The tables of a text. The root is the row of its declarations.
///
/// Each pass goes over the text once, so the time is about linear. What the rules on written types refuse, and a tree that no text has, are answered
/// by want of memory.
pub fn declare(alloc: Global, names: &Names, root: &Node) -> Result<Declared, NoMemory>
    requires keeps { Keeps (declarations_at names.now root.now) }
    requires signatures { signatures_breach (declarations_at names.now root.now) (declarations_at names.now root.now) ≡ None }
    requires room { 1 + count_nodes (node_at [] root.now) < 2 ^ 32 }
    ensures declares { IfOk result (Declares names.now root.now) }
    ensures left { IfOk result (Left names.now (declarations_at names.now root.now)) }
    ensures dispatches { IfOk result (Dispatches names.now root.now) }
    ensures members { IfOk result (λ d. have_members (declarations_at names.now root.now) ≡ true) }
{
    match root {
        Node::Row(nodes) => declare_shaped(alloc, names, root, nodes.as_slice()),
        // A tree that no text has.
        _ => Err(NoMemory),
    }
}

// The tables of the declarations of a row, where members alone stand in its classes and components.
fn declare_shaped(
    alloc: Global,
    names: &Names,
    root: &Node,
    nodes: &[Node],
) -> Result<Declared, NoMemory>
    requires row { (texts : List (List ℕ)) → node_at texts root.now ≡ row_at texts nodes.now }
    requires keeps { Keeps (declarations_at names.now root.now) }
    requires signatures { signatures_breach (declarations_at names.now root.now) (declarations_at names.now root.now) ≡ None }
    requires room { 1 + count_nodes (node_at [] root.now) < 2 ^ 32 }
    ensures declares { IfOk result (Declares names.now root.now) }
    ensures left { IfOk result (Left names.now (declarations_at names.now root.now)) }
    ensures dispatches { IfOk result (Dispatches names.now root.now) }
    ensures members { IfOk result (λ d. have_members (declarations_at names.now root.now) ≡ true) }
{
    if have_members(nodes) {
        declare_row(alloc, names, root, nodes)
    } else {
        // A tree that no text has.
        Err(NoMemory)
    }
}

// The tables of the declarations of a row.
fn declare_row(
    alloc: Global,
    names: &Names,
    root: &Node,
    nodes: &[Node],
) -> Result<Declared, NoMemory>
    requires row { (texts : List (List ℕ)) → node_at texts root.now ≡ row_at texts nodes.now }
    requires keeps { Keeps (declarations_at names.now root.now) }
    requires signatures { signatures_breach (declarations_at names.now root.now) (declarations_at names.now root.now) ≡ None }
    requires members { (texts : List (List ℕ)) → have_members (row_at texts nodes.now) ≡ true }
    requires room { 1 + count_nodes (node_at [] root.now) < 2 ^ 32 }
    ensures declares { IfOk result (Declares names.now root.now) }
    ensures left { IfOk result (Left names.now (declarations_at names.now root.now)) }
    ensures dispatches { IfOk result (Dispatches names.now root.now) }
{
    let (classes, above, others) = parts_of(declared_heads(alloc, names, nodes)?);
    let types = types_of(alloc, names, root, classes)?;
    let above = above_numbers(alloc, names, &types.classes, above.as_slice())?;
    declare_members(alloc, names, root, nodes, types, above, others)
}

// The types of a text with these classes.
fn types_of(
    alloc: Global,
    names: &Names,
    root: &Node,
    classes: ByText<u16>,
) -> Result<Types, NoMemory>
    requires { AreNumbered classes }
    ensures { IfOk result (λ types. types.classes ≡ classes) }
{
    let mut types = Types::new(alloc, classes)?;
    intern_node(&mut types, names, root)?;
    Ok(types)
}

// The tables, from these types, the numbers of the classes above classes, and the other names.
fn declare_members(
    alloc: Global,
    names: &Names,
    root: &Node,
    nodes: &[Node],
    types: Types,
    above: Row<Option<u16>>,
    others: Others,
) -> Result<Declared, NoMemory>
    requires row { (texts : List (List ℕ)) → node_at texts root.now ≡ row_at texts nodes.now }
    requires keeps { Keeps (declarations_at names.now root.now) }
    requires signatures { signatures_breach (declarations_at names.now root.now) (declarations_at names.now root.now) ≡ None }
    requires members { (texts : List (List ℕ)) → have_members (row_at texts nodes.now) ≡ true }
    requires room { 1 + count_nodes (node_at [] root.now) < 2 ^ 32 }
    requires heads { AreHeads names.now (row_at names.now nodes.now) types.classes above others }
    ensures declares { IfOk result (Declares names.now root.now) }
    ensures left { IfOk result (Left names.now (declarations_at names.now root.now)) }
    ensures dispatches { IfOk result (Dispatches names.now root.now) }
{
    let homes = declared_homes(alloc, names, &types, nodes)?;
    let lists = lists_of(
        alloc,
        nodes.len(),
        &others,
        above.as_slice(),
        &types,
        &homes,
    )?;
    let literals = literals_of(alloc, names, root)?;
    Ok(declared_of(others, types, homes, lists, literals))
}
