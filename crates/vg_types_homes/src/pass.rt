// The pass over the declarations.
ghost use Rattle.std.specs.Prelude.{◌≡◌, ◌<◌, ◌^◌, false, ℕ, List, [], All, IfOk, IfSome, OnOk};
ghost use Rattle.vg_syntax.specs.Numbering.{count_nodes};
ghost use Rattle.vg_tree.specs.Held.{node_at, row_at};
ghost use Rattle.vg_types_homes.specs.Homes.{AreHomes, no_view, homes_view, with_class, with_component, with_declaration, with_declarations, is_home};

use crate::homes::{Homes, keep_class, keep_component, no_homes};
use std::alloc::Global;
use vg_base::{Names, NoMemory};
use vg_core::Owner;
use vg_tree::Node;
use vg_types_interned::Types;
use vg_types_members::{Home, add_members, class_params};

/// What all declarations of a row declare.
pub fn declared_homes(
    alloc: Global,
    names: &Names,
    types: &Types,
    declarations: &[Node],
) -> Result<Homes, NoMemory>
    requires { All (λ n. count_nodes (node_at [] n) < 2 ^ 32) declarations.now }
    ensures view { IfOk result (λ homes. homes_view names.now types.now homes ≡ with_declarations (row_at names.now declarations.now) no_view) }
    ensures sound { IfOk result (AreHomes names.now types.now) }
{
    let mut homes = no_homes(alloc);
    'declarations: for declaration in declarations {
        add_declaration(alloc, names, types, declaration, &mut homes)?;
    }
    Ok(homes)
}

// One declaration more.
fn add_declaration(
    alloc: Global,
    names: &Names,
    types: &Types,
    declaration: &Node,
    homes: &mut Homes,
) -> Result<(), NoMemory>
    requires room { count_nodes (node_at [] declaration.now) < 2 ^ 32 }
    requires sound { AreHomes names.now types.now homes.old }
    ensures view { OnOk result (homes_view names.now types.now homes.new
        ≡ with_declaration (node_at names.now declaration.now) (homes_view names.now types.now homes.old)) }
    ensures sound { OnOk result (AreHomes names.now types.now homes.new) }
{
    match declaration {
        Node::ClassDecl(_, _, _, members) => add_class(alloc, names, types, members, homes),
        Node::ComponentDecl(_, _, members) => add_component(alloc, names, types, members, homes),
        _ => passed(declaration),
    }
}

// Past what is no class and no component.
fn passed(declaration: &Node) -> Result<(), NoMemory>
    requires { is_home declaration.now ≡ false }
    ensures { is_home declaration.now ≡ false }
{
    let _ = declaration;
    Ok(())
}

// One class more, with these members.
fn add_class(
    alloc: Global,
    names: &Names,
    types: &Types,
    members: &Node,
    homes: &mut Homes,
) -> Result<(), NoMemory>
    requires room { count_nodes (node_at [] members.now) < 2 ^ 32 }
    requires sound { AreHomes names.now types.now homes.old }
    ensures view { OnOk result (homes_view names.now types.now homes.new
        ≡ with_class (node_at names.now members.now) (homes_view names.now types.now homes.old)) }
    ensures sound { OnOk result (AreHomes names.now types.now homes.new) }
{
    let nodes = members_in(members)?;
    let class = next_number(homes.class_members.len())?;
    let params = class_params(alloc, names, types, nodes)?;
    let home = Home {
        owner: Owner::InClass(class),
        slot: 0,
    };
    let own = add_members(alloc, names, types, home, nodes, &mut homes.making)?;
    keep_class(names, types, class, params, own, homes)
}

// One component more, with these members.
fn add_component(
    alloc: Global,
    names: &Names,
    types: &Types,
    members: &Node,
    homes: &mut Homes,
) -> Result<(), NoMemory>
    requires room { count_nodes (node_at [] members.now) < 2 ^ 32 }
    requires sound { AreHomes names.now types.now homes.old }
    ensures view { OnOk result (homes_view names.now types.now homes.new
        ≡ with_component (node_at names.now members.now) (homes_view names.now types.now homes.old)) }
    ensures sound { OnOk result (AreHomes names.now types.now homes.new) }
{
    let nodes = members_in(members)?;
    let component = next_number(homes.component_members.len())?;
    let home = Home {
        owner: Owner::InComponent(component),
        slot: first_slot(homes.globals.len())?,
    };
    let own = add_members(alloc, names, types, home, nodes, &mut homes.making)?;
    keep_component(names, types, component, own, homes)
}

// The members of a row; a tree in which they are no row is that of no text.
fn members_in(node: &Node) -> Result<&[Node], NoMemory>
    ensures { IfOk result (λ nodes. (texts : List (List ℕ)) → node_at texts node.now ≡ row_at texts nodes.now) }
{
    match node {
        Node::Row(nodes) => Ok(nodes.as_slice()),
        _ => Err(NoMemory),
    }
}

// The number behind so many classes or components.
fn next_number(count: usize) -> Result<u16, NoMemory>
    ensures { IfOk result (λ number. number ≡ count) }
{
    match u16::try_from(count) {
        Ok(number) => Ok(number),
        // Cannot come: they were counted.
        Err(_) => Err(NoMemory),
    }
}

// The slot behind so many fields of components.
fn first_slot(count: usize) -> Result<u32, NoMemory>
    ensures { IfOk result (λ slot. slot ≡ count) }
{
    match u32::try_from(count) {
        Ok(slot) => Ok(slot),
        // There is no memory for more fields than have a number.
        Err(_) => Err(NoMemory),
    }
}
