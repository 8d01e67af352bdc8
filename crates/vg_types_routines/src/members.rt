// Members, in order of the text.
ghost use Rattle.std.specs.Prelude.{◌≡◌, ◌<◌, ◌+◌, ◌^◌, Some, IfSome};
ghost use Rattle.vg_syntax.specs.Numbering.{count_nodes, numbered};
ghost use Rattle.vg_syntax.specs.Reads.{spot};
ghost use Rattle.vg_tree.specs.Held.{text_at, type_at, node_at, row_at};
ghost use Rattle.vg_source.specs.Declared.{written_type};
ghost use Rattle.vg_source.specs.Resolved.{Fresh};
ghost use Rattle.vg_source.specs.Program.{scope_of};
ghost use Rattle.vg_rules.specs.Bodies.{breach};
ghost use Rattle.vg_rules.specs.Legal.{body_of, bodies_breach};
ghost use Rattle.vg_types_views.specs.Judges.{Judges};
ghost use Rattle.vg_types_tables.specs.Views.{declarations_at, owner_view};
ghost use Rattle.vg_types_tables.specs.Declares.{Declares, IsClass};
ghost use Rattle.vg_types_tables.specs.Promises.{IsOwner};
ghost use Rattle.vg_types_bodies.specs.Initial.{above_name, initial_breach};
ghost use Rattle.vg_types_bodies.specs.Makings.{constructor_breach};
ghost use Rattle.vg_types_bodies.specs.Parameters.{params_at};
ghost use Rattle.vg_types_routines.specs.Asked.{member_breach};
ghost use Rattle.vg_types_routines.specs.Fields.{field_node};
ghost use Rattle.vg_types_routines.specs.Walked.{constructor_of, Adds, AddsField, AddsMethod, AddsMade, IsWalked};

use crate::constructors::constructed;
use crate::fields::initialiser;
use crate::methods::method;
use crate::walked::{Walked, with_body, with_init, with_made};
use std::alloc::Global;
use vg_base::{Name, Names, Place, Refusal};
use vg_core::{Body, Owner};
use vg_tree::{Node, Param, TypeTree};
use vg_types_classes::row_of;
use vg_types_counts::count_nodes;
use vg_types_simple::nothing;
use vg_types_tables::Declared;
use vg_types_views::Broken;

/// What is built of the members of this owner, behind these methods, or the first breach in them. `first` is the number of the first member.
pub(crate) fn walk(
    alloc: Global,
    names: &Names,
    root: &Node,
    declared: &Declared,
    owner: Owner,
    above: Option<u16>,
    methods: Vec<Body>,
    members: &Node,
    first: u32,
) -> Result<Walked, Refusal<Broken>>
    requires declares { Declares names.now root.now declared.now }
    requires owner { IsOwner declared.now.tables (Some owner) }
    requires above { IfSome above (IsClass declared.now.tables) }
    requires room { first + count_nodes (node_at names.now members.now) < 2 ^ 32 }
    ensures { Judges (IsWalked names.now root.now declared.now owner above (numbered first (node_at names.now members.now)) methods.items) result
        (bodies_breach (declarations_at names.now root.now) (owner_view names.now declared.now (Some owner))
        (above_name names.now declared.now above) (numbered first (node_at names.now members.now))) }
{
    match row_of(members) {
        Some(nodes) => walk_row(
            alloc, names, root, declared, owner, above, methods, nodes, first,
        ),
        // A tree that no text has.
        None => Err(Refusal::NoMemory),
    }
}

// What is built of these members.
fn walk_row(
    alloc: Global,
    names: &Names,
    root: &Node,
    declared: &Declared,
    owner: Owner,
    above: Option<u16>,
    methods: Vec<Body>,
    members: &[Node],
    first: u32,
) -> Result<Walked, Refusal<Broken>>
    requires declares { Declares names.now root.now declared.now }
    requires owner { IsOwner declared.now.tables (Some owner) }
    requires above { IfSome above (IsClass declared.now.tables) }
    requires room { first + count_nodes (row_at names.now members.now) < 2 ^ 32 }
    ensures { Judges (IsWalked names.now root.now declared.now owner above (numbered first (row_at names.now members.now)) methods.items) result
        (bodies_breach (declarations_at names.now root.now) (owner_view names.now declared.now (Some owner))
        (above_name names.now declared.now above) (numbered first (row_at names.now members.now))) }
{
    let mut walked = Walked {
        inits: Vec::new(alloc),
        methods,
        made: None,
    };
    let mut next = first;
    'each: for member in members {
        walked = match one_member(
            alloc, names, root, declared, owner, above, walked, member, next,
        ) {
            Ok(walked) => walked,
            Err(fault) => return Err(fault),
        };
        next = next + extent(names, member);
    }
    Ok(walked)
}

/// How many nodes there are at and below a node.
pub(crate) fn extent(names: &Names, node: &Node) -> u32
    requires { count_nodes (node_at names.now node.now) < 2 ^ 32 }
    ensures { result ≡ count_nodes (node_at names.now node.now) }
{
    count_nodes(node)
}

// What is built with one member more, which has this number.
fn one_member(
    alloc: Global,
    names: &Names,
    root: &Node,
    declared: &Declared,
    owner: Owner,
    above: Option<u16>,
    so_far: Walked,
    member: &Node,
    id: u32,
) -> Result<Walked, Refusal<Broken>>
    requires declares { Declares names.now root.now declared.now }
    requires owner { IsOwner declared.now.tables (Some owner) }
    requires above { IfSome above (IsClass declared.now.tables) }
    requires room { id + count_nodes (node_at names.now member.now) < 2 ^ 32 }
    ensures { Judges (Adds names.now root.now declared.now owner above (numbered id (node_at names.now member.now)) so_far) result
        (member_breach (declarations_at names.now root.now) (owner_view names.now declared.now (Some owner))
        (above_name names.now declared.now above) (numbered id (node_at names.now member.now))) }
{
    match member {
        Node::FieldDecl(place, name, type_, value) => field(
            alloc, names, root, declared, owner, so_far, *place, *name, type_, value, id,
        ),
        Node::MethodDecl(_, _, params, result, block) => one_method(
            alloc,
            names,
            root,
            declared,
            owner,
            so_far,
            params.as_slice(),
            result,
            block,
            id + 1,
        ),
        Node::ConstructorDecl(_, params, _, args, block) => one_constructor(
            alloc,
            names,
            root,
            declared,
            owner,
            above,
            so_far,
            params.as_slice(),
            args,
            block,
            id,
        ),
        // A tree that no text has.
        _ => Err(Refusal::NoMemory),
    }
}

// With a field more.
fn field(
    alloc: Global,
    names: &Names,
    root: &Node,
    declared: &Declared,
    owner: Owner,
    so_far: Walked,
    place: Place,
    name: Name,
    type_: &TypeTree,
    value: &Node,
    id: u32,
) -> Result<Walked, Refusal<Broken>>
    requires declares { Declares names.now root.now declared.now }
    requires owner { IsOwner declared.now.tables (Some owner) }
    requires room { id + 1 + count_nodes (node_at names.now value.now) < 2 ^ 32 }
    ensures { Judges (AddsField names.now root.now declared.now owner
        (field_node id (spot place) (text_at names.now name) (type_at names.now type_.now) (numbered (id + 1) (node_at names.now value.now))) so_far) result
        (initial_breach (declarations_at names.now root.now) (written_type (type_at names.now type_.now))
        (numbered (id + 1) (node_at names.now value.now)) id) }
{
    let code = match initialiser(
        alloc, names, root, declared, owner, place, name, type_, value, id,
    ) {
        Ok(code) => code,
        Err(fault) => return Err(fault),
    };
    Ok(with_init(so_far, code)?)
}

// With a method more. `id` is the number of its block.
fn one_method(
    alloc: Global,
    names: &Names,
    root: &Node,
    declared: &Declared,
    owner: Owner,
    so_far: Walked,
    params: &[Param],
    type_: &TypeTree,
    block: &Node,
    id: u32,
) -> Result<Walked, Refusal<Broken>>
    requires declares { Declares names.now root.now declared.now }
    requires owner { IsOwner declared.now.tables (Some owner) }
    requires room { id + count_nodes (node_at names.now block.now) < 2 ^ 32 }
    ensures { Judges (AddsMethod names.now root.now declared.now owner (params_at names.now params.now) (type_at names.now type_.now)
        (numbered id (node_at names.now block.now)) so_far) result
        (breach (declarations_at names.now root.now)
        (body_of (owner_view names.now declared.now (Some owner)) (written_type (type_at names.now type_.now)))
        (numbered id (node_at names.now block.now)) Fresh (scope_of (params_at names.now params.now))) }
{
    let body = match method(
        alloc, names, root, declared, owner, params, type_, block, id,
    ) {
        Ok(body) => body,
        Err(fault) => return Err(fault),
    };
    let walked = with_body(so_far, body)?;
    Ok(with_init(walked, nothing(alloc))?)
}

// With the constructor.
fn one_constructor(
    alloc: Global,
    names: &Names,
    root: &Node,
    declared: &Declared,
    owner: Owner,
    above: Option<u16>,
    so_far: Walked,
    params: &[Param],
    args: &Node,
    block: &Node,
    id: u32,
) -> Result<Walked, Refusal<Broken>>
    requires declares { Declares names.now root.now declared.now }
    requires owner { IsOwner declared.now.tables (Some owner) }
    requires above { IfSome above (IsClass declared.now.tables) }
    requires room { id + 1 + count_nodes (node_at names.now args.now) + count_nodes (node_at names.now block.now) < 2 ^ 32 }
    ensures { Judges (AddsMade names.now root.now declared.now owner above (constructor_of (params_at names.now params.now)
        (numbered (id + 1) (node_at names.now args.now)) (numbered (id + 1 + count_nodes (node_at names.now args.now)) (node_at names.now block.now))) so_far)
        result
        (constructor_breach names.now root.now declared.now owner above (params_at names.now params.now)
        (numbered (id + 1) (node_at names.now args.now)) (numbered (id + 1 + count_nodes (node_at names.now args.now)) (node_at names.now block.now)) id) }
{
    if so_far.made.is_some() {
        // There is one constructor at most: this rule is asked before.
        return Err(Refusal::NoMemory);
    }
    let made = match constructed(
        alloc, names, root, declared, owner, above, params, args, block, id,
    ) {
        Ok(made) => made,
        Err(fault) => return Err(fault),
    };
    Ok(with_init(with_made(so_far, made), nothing(alloc))?)
}
