// Constructors.
ghost use Rattle.std.specs.Prelude.{◌≡◌, ◌<◌, ◌+◌, ◌^◌, Some, IfOk, IfSome, IsTrue};
ghost use Rattle.vg_syntax.specs.Numbering.{count_nodes, numbered};
ghost use Rattle.vg_tree.specs.Held.{node_at};
ghost use Rattle.vg_types_views.specs.Judges.{Judges};
ghost use Rattle.vg_types_tables.specs.Declares.{Declares, IsClass};
ghost use Rattle.vg_types_tables.specs.Promises.{IsOwner};
ghost use Rattle.vg_types_bodies.specs.Parameters.{params_at};
ghost use Rattle.vg_types_bodies.specs.Makings.{constructor_breach};
ghost use Rattle.vg_types_routines.specs.Walked.{Takes, constructor_of, no_constructor, IsMadeOf};

use std::alloc::Global;
use vg_base::{Names, NoMemory, Refusal};
use vg_core::Owner;
use vg_tree::rows::row_of;
use vg_tree::{Node, Param};
use vg_types_bodies::{Constructed, constructor, with_parameters};
use vg_types_tables::Declared;
use vg_types_views::Broken;

/// What is made of a constructor of this number, or the first breach in it.
pub(crate) fn constructed(
    alloc: Global,
    names: &Names,
    root: &Node,
    declared: &Declared,
    owner: Owner,
    above: Option<u16>,
    params: &[Param],
    args: &Node,
    block: &Node,
    id: u32,
) -> Result<Constructed, Refusal<Broken>>
    requires declares { Declares names.now root.now declared.now }
    requires owner { IsOwner declared.now.tables (Some owner) }
    requires above { IfSome above (IsClass declared.now.tables) }
    requires room { id + 1 + count_nodes (node_at names.now args.now) + count_nodes (node_at names.now block.now) < 2 ^ 32 }
    ensures { Judges (IsMadeOf names.now root.now declared.now owner above (constructor_of (params_at names.now params.now)
        (numbered (id + 1) (node_at names.now args.now)) (numbered (id + 1 + count_nodes (node_at names.now args.now)) (node_at names.now block.now)))) result
        (constructor_breach names.now root.now declared.now owner above (params_at names.now params.now)
        (numbered (id + 1) (node_at names.now args.now)) (numbered (id + 1 + count_nodes (node_at names.now args.now)) (node_at names.now block.now)) id) }
{
    if !may_take(names, owner, params) {
        // A component's constructor has no parameters: this rule is asked before.
        return Err(Refusal::NoMemory);
    }
    let locals = with_parameters(alloc, names, root, declared, params)?;
    constructor(
        alloc,
        names,
        root,
        declared,
        owner,
        above,
        locals.declared.as_slice(),
        params,
        args,
        block,
        id,
    )
}

// Whether a constructor of this owner may have these parameters.
fn may_take(names: &Names, owner: Owner, params: &[Param]) -> bool
    ensures { IsTrue result → Takes owner (params_at names.now params.now) }
{
    match owner {
        Owner::InClass(_) => true,
        Owner::InComponent(_) => params.is_empty(),
    }
}

/// What is made where no constructor is written.
pub(crate) fn unwritten(
    alloc: Global,
    names: &Names,
    root: &Node,
    declared: &Declared,
    owner: Owner,
    above: Option<u16>,
) -> Result<Constructed, NoMemory>
    requires declares { Declares names.now root.now declared.now }
    requires owner { IsOwner declared.now.tables (Some owner) }
    requires above { IfSome above (IsClass declared.now.tables) }
    ensures { IfOk result (IsMadeOf names.now root.now declared.now owner above no_constructor) }
{
    let arguments = row_of(Vec::new(alloc));
    let block = Node::Nothing;
    match constructed(
        alloc,
        names,
        root,
        declared,
        owner,
        above,
        &[],
        &arguments,
        &block,
        0,
    ) {
        Ok(made) => Ok(made),
        // The construction of the class above takes no arguments: this rule is asked before.
        Err(_) => Err(NoMemory),
    }
}
