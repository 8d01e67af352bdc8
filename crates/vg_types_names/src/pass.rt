// The pass over the names of declarations.
ghost use Rattle.std.specs.Prelude.{◌≡◌, ◌<◌, ◌+◌, ◌^◌, []};
ghost use Rattle.vg_syntax.specs.Numbering.{count_nodes, numbered};
ghost use Rattle.vg_tree.specs.Held.{row_at};
ghost use Rattle.vg_tree_walks.specs.Whole.{tree_at, node_count};
ghost use Rattle.vg_base.specs.declared.refusal.Refusal.TheVariants.{Fault};
ghost use Rattle.vg_types_views.specs.Judges.{Judges};
ghost use Rattle.vg_types_names.specs.Declarations.{IsMapOf, names_part};
ghost use Rattle.vg_types_names.specs.Naming.{names_in, IsMapIn};

use crate::declaration::{
    Declaration, counted, declarations_of, name_and_sort, next_declaration, no_counts,
};
use std::alloc::Global;
use vg_base::{Names, NodeId, Refusal};
use vg_tree::Node;
use vg_tree_walks::Tree;
use vg_types_counts::count_nodes;
use vg_types_views::{Broken, ByText, text_of};

/// The declarations of a text by name, or the first breach of the rules on their names and on the number of program declarations.
///
/// Each name is looked up once, so the time is about linear. A tree that no text has is answered by want of memory.
pub fn declared_names(
    alloc: Global,
    names: &Names,
    tree: &Tree,
) -> Result<ByText<Declaration>, Refusal<Broken>>
    requires { node_count tree.now < 2 ^ 32 }
    ensures { Judges (IsMapOf (tree_at names.now tree.now)) result (names_part (tree_at names.now tree.now)) }
{
    match declarations_of(&tree.root) {
        Some(nodes) => named_in(alloc, names, nodes),
        None => Err(Refusal::NoMemory),
    }
}

// The declarations of a row by name, the first of which has the number 1.
fn named_in(
    alloc: Global,
    names: &Names,
    nodes: &[Node],
) -> Result<ByText<Declaration>, Refusal<Broken>>
    requires { 1 + count_nodes (row_at [] nodes.now) < 2 ^ 32 }
    ensures { Judges (IsMapIn (numbered 1 (row_at names.now nodes.now))) result (names_in (numbered 1 (row_at names.now nodes.now))) }
{
    let mut map = ByText::new(alloc);
    let mut counts = no_counts();
    let mut next = 1;
    'each: for node in nodes {
        let found = match name_and_sort(node) {
            Some(found) => found,
            None => return Err(Refusal::NoMemory),
        };
        let new = map.add(
            text_of(names, found.name),
            next_declaration(found.sort, counts),
        )?;
        if !new {
            return Err(broken(1, next));
        }
        counts = counted(found.sort, counts);
        next = next + count_nodes(node);
    }
    if counts.programs == 1 {
        Ok(map)
    } else {
        Err(broken(2, 0))
    }
}

// The breach of a rule at a node.
fn broken(rule: u8, node: u32) -> Refusal<Broken>
    ensures { result ≡ Fault (record { rule = rule; node = record { 0 = node } }) }
{
    Refusal::Fault(Broken {
        rule,
        node: NodeId(node),
    })
}
