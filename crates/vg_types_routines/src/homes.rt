// The bodies of one class or component.
ghost use Rattle.std.specs.Prelude.{◌≡◌, ◌<◌, ◌+◌, ◌^◌, Some, None, IfOk, IfSome, IsTrue};
ghost use Rattle.vg_syntax.specs.Numbering.{count_nodes, numbered};
ghost use Rattle.vg_tree.specs.Held.{node_at};
ghost use Rattle.vg_source.specs.Program.{Constructor};
ghost use Rattle.vg_rules.specs.Legal.{bodies_breach};
ghost use Rattle.vg_core.specs.declared.program.Owner.TheVariants.{InClass, InComponent};
ghost use Rattle.vg_types_views.specs.Judges.{Judges};
ghost use Rattle.vg_types_tables.specs.Views.{declarations_at, owner_view};
ghost use Rattle.vg_types_tables.specs.Declares.{Declares, IsClass, IsComponent};
ghost use Rattle.vg_types_tables.specs.Promises.{IsOwner};
ghost use Rattle.vg_types_bodies.specs.Initial.{above_name};
ghost use Rattle.vg_types_bodies.specs.Routines.{IsBelow};
ghost use Rattle.vg_types_routines.specs.Walked.{no_constructor, IsMadeOf, MadeOf};
ghost use Rattle.vg_types_routines.specs.Homes.{IsClassHome, IsComponentHome};

use crate::constructors::unwritten;
use crate::members::walk;
use crate::walked::Walked;
use std::alloc::Global;
use vg_base::{Names, NoMemory, Refusal};
use vg_core::{Body, Owner};
use vg_tree::Node;
use vg_types_bodies::{Constructed, made, started};
use vg_types_tables::{Declared, is_below};
use vg_types_views::Broken;

/// The bodies of the methods of a class or component, behind those before; and what makes or starts it.
#[derive(Drop)]
pub(crate) struct Home {
    pub methods: Vec<Body>,
    pub body: Body,
}

/// The bodies of a class, or the first breach in them. `first` is the number of the first of its members.
pub(crate) fn class_home(
    alloc: Global,
    names: &Names,
    root: &Node,
    declared: &Declared,
    class: u16,
    above: Option<u16>,
    methods: Vec<Body>,
    members: &Node,
    first: u32,
) -> Result<Home, Refusal<Broken>>
    requires declares { Declares names.now root.now declared.now }
    requires there { IsClass declared.now.tables class }
    requires above { IfSome above (IsClass declared.now.tables) }
    requires room { first + count_nodes (node_at names.now members.now) < 2 ^ 32 }
    ensures { Judges (IsClassHome names.now root.now declared.now class above (numbered first (node_at names.now members.now)) methods.items) result
        (bodies_breach (declarations_at names.now root.now) (owner_view names.now declared.now (Some (InClass class)))
        (above_name names.now declared.now above) (numbered first (node_at names.now members.now))) }
{
    if !stands_below(declared, class, above) {
        // The class above is above: the rules on classes are asked before.
        return Err(Refusal::NoMemory);
    }
    let owner = Owner::InClass(class);
    let walked = match walk(
        alloc, names, root, declared, owner, above, methods, members, first,
    ) {
        Ok(walked) => walked,
        Err(fault) => return Err(fault),
    };
    let Walked {
        inits,
        methods: all,
        made: written,
    } = walked;
    let constructed = the_constructor(alloc, names, root, declared, owner, above, written)?;
    let body = made(alloc, constructed, inits)?;
    Ok(Home { methods: all, body })
}

/// The bodies of a component, or the first breach in them. `first` is the number of the first of its members.
pub(crate) fn component_home(
    alloc: Global,
    names: &Names,
    root: &Node,
    declared: &Declared,
    component: u16,
    methods: Vec<Body>,
    members: &Node,
    first: u32,
) -> Result<Home, Refusal<Broken>>
    requires declares { Declares names.now root.now declared.now }
    requires there { IsComponent declared.now.tables component }
    requires room { first + count_nodes (node_at names.now members.now) < 2 ^ 32 }
    ensures { Judges (IsComponentHome names.now root.now declared.now component (numbered first (node_at names.now members.now)) methods.items) result
        (bodies_breach (declarations_at names.now root.now) (owner_view names.now declared.now (Some (InComponent component))) None
        (numbered first (node_at names.now members.now))) }
{
    let owner = Owner::InComponent(component);
    let walked = match walk(
        alloc, names, root, declared, owner, None, methods, members, first,
    ) {
        Ok(walked) => walked,
        Err(fault) => return Err(fault),
    };
    let Walked {
        inits,
        methods: all,
        made: written,
    } = walked;
    let constructed = the_constructor(alloc, names, root, declared, owner, None, written)?;
    let body = started(alloc, constructed, inits)?;
    Ok(Home { methods: all, body })
}

// What is made of the constructor that is written, or of that where none is.
fn the_constructor(
    alloc: Global,
    names: &Names,
    root: &Node,
    declared: &Declared,
    owner: Owner,
    above: Option<u16>,
    written: Option<Constructed>,
) -> Result<Constructed, NoMemory>
    requires declares { Declares names.now root.now declared.now }
    requires owner { IsOwner declared.now.tables (Some owner) }
    requires above { IfSome above (IsClass declared.now.tables) }
    ensures { IfOk result (λ c. (k : Constructor) → MadeOf names.now root.now declared.now owner above written k no_constructor
        → IsMadeOf names.now root.now declared.now owner above k c) }
{
    match written {
        Some(constructed) => Ok(constructed),
        None => unwritten(alloc, names, root, declared, owner, above),
    }
}

// Whether a class is below this one, where there is one.
fn stands_below(declared: &Declared, class: u16, above: Option<u16>) -> bool
    ensures { IsTrue result → IsBelow declared.now.tables class above }
{
    match above {
        Some(above) => is_below(&declared.tables, class, above),
        None => true,
    }
}
