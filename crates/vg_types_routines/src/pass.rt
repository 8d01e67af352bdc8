// The bodies of all declarations.
ghost use Rattle.std.specs.Prelude.{◌≡◌, ◌<◌, ◌+◌, ◌^◌, [], None};
ghost use Rattle.std.specs.Option.{option_map};
ghost use Rattle.vg_syntax.specs.Numbering.{count_nodes, numbered};
ghost use Rattle.vg_tree.specs.Held.{text_at, node_at, row_at};
ghost use Rattle.vg_source.specs.Resolved.{InClass, InComponent};
ghost use Rattle.vg_rules.specs.Legal.{bodies_breach, written_breach};
ghost use Rattle.vg_types_views.specs.Judges.{Judges};
ghost use Rattle.vg_types_tables.specs.Views.{declarations_at};
ghost use Rattle.vg_types_tables.specs.Declares.{Declares};
ghost use Rattle.vg_types_routines.specs.Asked.{one_breach};
ghost use Rattle.vg_types_routines.specs.Bodies.{AllBodies};
ghost use Rattle.vg_types_routines.specs.Homes.{AddsClass, AddsComponent, Gains};

use crate::homes::{Home, class_home, component_home};
use crate::members::extent;
use crate::owners::class_above;
use std::alloc::Global;
use vg_base::{Name, Names, Refusal};
use vg_core::Body;
use vg_tree::Node;
use vg_types_classes::row_of;
use vg_types_tables::{Declared, class_of, component_of};
use vg_types_views::{Broken, text_of};

/// The bodies of a text, each row in order of the text.
#[derive(Drop)]
pub struct Bodies {
    /// Of the methods of all classes and components.
    pub methods: Vec<Body>,
    /// Of the constructions of the classes.
    pub makings: Vec<Body>,
    /// Of the initialisations of the components.
    pub starts: Vec<Body>,
}

/// The bodies of a text, or the first breach in what is written in the members of its declarations. The root is the row of declarations.
///
/// The rules on declarations are asked before. What breaks one of them is answered by want of memory, and so is a tree that no text has.
pub fn bodies_of(
    alloc: Global,
    names: &Names,
    root: &Node,
    declared: &Declared,
) -> Result<Bodies, Refusal<Broken>>
    requires declares { Declares names.now root.now declared.now }
    requires room { 1 + count_nodes (node_at [] root.now) < 2 ^ 32 }
    ensures { Judges (λ b. AllBodies names.now root.now declared.now (declarations_at names.now root.now) b.methods.items b.makings.items b.starts.items)
        result (written_breach (declarations_at names.now root.now) (declarations_at names.now root.now)) }
{
    match row_of(root) {
        Some(nodes) => bodies_in(alloc, names, root, declared, nodes),
        // A tree that no text has.
        None => Err(Refusal::NoMemory),
    }
}

// The bodies of these declarations.
fn bodies_in(
    alloc: Global,
    names: &Names,
    root: &Node,
    declared: &Declared,
    nodes: &[Node],
) -> Result<Bodies, Refusal<Broken>>
    requires declares { Declares names.now root.now declared.now }
    requires room { 1 + count_nodes (row_at names.now nodes.now) < 2 ^ 32 }
    ensures { Judges (λ b. AllBodies names.now root.now declared.now (numbered 1 (row_at names.now nodes.now)) b.methods.items b.makings.items
        b.starts.items) result
        (written_breach (declarations_at names.now root.now) (numbered 1 (row_at names.now nodes.now))) }
{
    let mut bodies = Bodies {
        methods: Vec::new(alloc),
        makings: Vec::new(alloc),
        starts: Vec::new(alloc),
    };
    let mut next = 1;
    'each: for node in nodes {
        bodies = match one(alloc, names, root, declared, bodies, node, next) {
            Ok(bodies) => bodies,
            Err(fault) => return Err(fault),
        };
        next = next + extent(names, node);
    }
    Ok(bodies)
}

// The bodies with one declaration more, which has this number.
fn one(
    alloc: Global,
    names: &Names,
    root: &Node,
    declared: &Declared,
    so_far: Bodies,
    declaration: &Node,
    id: u32,
) -> Result<Bodies, Refusal<Broken>>
    requires declares { Declares names.now root.now declared.now }
    requires room { id + count_nodes (node_at names.now declaration.now) < 2 ^ 32 }
    ensures { Judges (Gains names.now root.now declared.now (numbered id (node_at names.now declaration.now)) so_far) result
        (one_breach (declarations_at names.now root.now) (numbered id (node_at names.now declaration.now))) }
{
    match declaration {
        Node::ClassDecl(_, name, above, members) => one_class(
            alloc,
            names,
            root,
            declared,
            so_far,
            text_of(names, *name),
            *above,
            members,
            id + 1,
        ),
        Node::ComponentDecl(_, name, members) => one_component(
            alloc,
            names,
            root,
            declared,
            so_far,
            text_of(names, *name),
            members,
            id + 1,
        ),
        Node::DeviceDecl(_, _, _) | Node::ProgramDecl(_, _, _) => Ok(so_far),
        // A tree that no text has.
        _ => Err(Refusal::NoMemory),
    }
}

// With the class of this name. `first` is the number of the first of its members.
fn one_class(
    alloc: Global,
    names: &Names,
    root: &Node,
    declared: &Declared,
    so_far: Bodies,
    class: &str,
    above: Option<Name>,
    members: &Node,
    first: u32,
) -> Result<Bodies, Refusal<Broken>>
    requires declares { Declares names.now root.now declared.now }
    requires room { first + count_nodes (node_at names.now members.now) < 2 ^ 32 }
    ensures { Judges (AddsClass names.now root.now declared.now class.now (option_map (text_at names.now) above)
        (numbered first (node_at names.now members.now)) so_far) result
        (bodies_breach (declarations_at names.now root.now) (InClass class.now) (option_map (text_at names.now) above)
        (numbered first (node_at names.now members.now))) }
{
    let class_above = class_above(names, root, declared, above)?;
    let number = match class_of(declared, class) {
        Some(number) => number,
        // All classes of the text are in the tables.
        None => return Err(Refusal::NoMemory),
    };
    let Bodies {
        methods,
        makings,
        starts,
    } = so_far;
    let home = match class_home(
        alloc,
        names,
        root,
        declared,
        number,
        class_above,
        methods,
        members,
        first,
    ) {
        Ok(home) => home,
        Err(fault) => return Err(fault),
    };
    let Home { methods: all, body } = home;
    let mut makings = makings;
    makings.push(body)?;
    Ok(Bodies {
        methods: all,
        makings,
        starts,
    })
}

// With the component of this name. `first` is the number of the first of its members.
fn one_component(
    alloc: Global,
    names: &Names,
    root: &Node,
    declared: &Declared,
    so_far: Bodies,
    component: &str,
    members: &Node,
    first: u32,
) -> Result<Bodies, Refusal<Broken>>
    requires declares { Declares names.now root.now declared.now }
    requires room { first + count_nodes (node_at names.now members.now) < 2 ^ 32 }
    ensures { Judges (AddsComponent names.now root.now declared.now component.now (numbered first (node_at names.now members.now)) so_far) result
        (bodies_breach (declarations_at names.now root.now) (InComponent component.now) None (numbered first (node_at names.now members.now))) }
{
    let number = match component_of(declared, component) {
        Some(number) => number,
        // All components of the text are in the tables.
        None => return Err(Refusal::NoMemory),
    };
    let Bodies {
        methods,
        makings,
        starts,
    } = so_far;
    let home = match component_home(
        alloc, names, root, declared, number, methods, members, first,
    ) {
        Ok(home) => home,
        Err(fault) => return Err(fault),
    };
    let Home { methods: all, body } = home;
    let mut starts = starts;
    starts.push(body)?;
    Ok(Bodies {
        methods: all,
        makings,
        starts,
    })
}
