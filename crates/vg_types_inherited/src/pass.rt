// The pass over what classes inherit.
ghost use Rattle.std.specs.Prelude.{◌≡◌, ◌<◌, ◌+◌, ◌^◌, []};
ghost use Rattle.vg_syntax.specs.Numbering.{count_nodes, numbered};
ghost use Rattle.vg_tree.specs.Held.{node_at, row_at};
ghost use Rattle.vg_rules.specs.Breach.{◌or◌};
ghost use Rattle.vg_rules.specs.Inherited.{overriding_breach, default_keeps, inherited_breach};
ghost use Rattle.vg_types_views.specs.Judges.{Judges};
ghost use Rattle.vg_types_tables.specs.Views.{declarations_at};
ghost use Rattle.vg_types_tables.specs.Declares.{Declares};
ghost use Rattle.vg_types_inherited.specs.Asked.{one_breach, default_breach};

use crate::defaults::{has_constructor, takes_nothing};
use crate::overriding::member_rule;
use vg_base::{Names, Refusal};
use vg_tree::Node;
use vg_types_classes::{broken, row_of};
use vg_types_counts::count_nodes;
use vg_types_tables::Declared;
use vg_types_views::{Broken, text_of};

/// The first breach of the rules on what a class declares beside what it inherits. The root is the row of declarations.
///
/// Each member is looked up once among those of the class above, so the time is about linear. A tree that no text has is answered by
/// want of memory.
pub fn inherited(names: &Names, root: &Node, declared: &Declared) -> Result<(), Refusal<Broken>>
    requires declares { Declares names.now root.now declared.now }
    requires room { 1 + count_nodes (node_at [] root.now) < 2 ^ 32 }
    ensures { Judges (λ u. Unit {0}) result (inherited_breach (declarations_at names.now root.now) (declarations_at names.now root.now)) }
{
    match row_of(root) {
        Some(nodes) => inherited_in(names, root, declared, nodes),
        // A tree that no text has.
        None => Err(Refusal::NoMemory),
    }
}

// The first breach among these declarations.
fn inherited_in(
    names: &Names,
    root: &Node,
    declared: &Declared,
    nodes: &[Node],
) -> Result<(), Refusal<Broken>>
    requires declares { Declares names.now root.now declared.now }
    requires room { 1 + count_nodes (row_at [] nodes.now) < 2 ^ 32 }
    ensures { Judges (λ u. Unit {0}) result (inherited_breach (declarations_at names.now root.now) (numbered 1 (row_at names.now nodes.now))) }
{
    let mut next = 1;
    'each: for node in nodes {
        one(names, root, declared, node, next)?;
        next = next + count_nodes(node);
    }
    Ok(())
}

// The first breach in a declaration of this number.
fn one(
    names: &Names,
    root: &Node,
    declared: &Declared,
    declaration: &Node,
    id: u32,
) -> Result<(), Refusal<Broken>>
    requires declares { Declares names.now root.now declared.now }
    requires room { id + count_nodes (node_at [] declaration.now) < 2 ^ 32 }
    ensures { Judges (λ u. Unit {0}) result
        (one_breach (declarations_at names.now root.now) (numbered id (node_at names.now declaration.now))) }
{
    match declaration {
        Node::ClassDecl(_, _, above, members) => match above {
            Some(above) => in_class(names, root, declared, text_of(names, *above), members, id),
            None => Ok(()),
        },
        Node::ComponentDecl(_, _, _) | Node::DeviceDecl(_, _, _) | Node::ProgramDecl(_, _, _) => Ok(
            (),
        ),
        // A tree that no text has.
        _ => Err(Refusal::NoMemory),
    }
}

// The first breach in a class of this number, which extends the class of this name.
fn in_class(
    names: &Names,
    root: &Node,
    declared: &Declared,
    above: &str,
    members: &Node,
    id: u32,
) -> Result<(), Refusal<Broken>>
    requires declares { Declares names.now root.now declared.now }
    requires room { id + 1 + count_nodes (node_at [] members.now) < 2 ^ 32 }
    ensures { Judges (λ u. Unit {0}) result
        (overriding_breach (declarations_at names.now root.now) above.now (numbered (id + 1) (node_at names.now members.now))
        or default_breach (default_keeps (declarations_at names.now root.now) above.now (numbered (id + 1) (node_at names.now members.now))) id) }
{
    match row_of(members) {
        Some(nodes) => in_members(names, root, declared, above, nodes, id),
        // A tree that no text has.
        None => Err(Refusal::NoMemory),
    }
}

// The first breach in a class of this number with these members.
fn in_members(
    names: &Names,
    root: &Node,
    declared: &Declared,
    above: &str,
    members: &[Node],
    id: u32,
) -> Result<(), Refusal<Broken>>
    requires declares { Declares names.now root.now declared.now }
    requires room { id + 1 + count_nodes (row_at [] members.now) < 2 ^ 32 }
    ensures { Judges (λ u. Unit {0}) result
        (overriding_breach (declarations_at names.now root.now) above.now (numbered (id + 1) (row_at names.now members.now))
        or default_breach (default_keeps (declarations_at names.now root.now) above.now (numbered (id + 1) (row_at names.now members.now))) id) }
{
    overriding(names, root, declared, above, members, id + 1)?;
    if has_constructor(members) || takes_nothing(names, root, declared, above) {
        Ok(())
    } else {
        Err(broken(10, id))
    }
}

// The first breach among these members, the first of which has this number.
fn overriding(
    names: &Names,
    root: &Node,
    declared: &Declared,
    above: &str,
    members: &[Node],
    first: u32,
) -> Result<(), Refusal<Broken>>
    requires declares { Declares names.now root.now declared.now }
    requires room { first + count_nodes (row_at [] members.now) < 2 ^ 32 }
    ensures { Judges (λ u. Unit {0}) result
        (overriding_breach (declarations_at names.now root.now) above.now (numbered first (row_at names.now members.now))) }
{
    let mut next = first;
    'each: for member in members {
        match member_rule(names, root, declared, above, member)? {
            Some(rule) => return Err(broken(rule, next)),
            None => {}
        }
        next = next + count_nodes(member);
    }
    Ok(())
}
