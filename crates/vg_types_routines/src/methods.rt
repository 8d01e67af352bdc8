// The bodies of methods.
ghost use Rattle.std.specs.Prelude.{◌≡◌, ◌<◌, ◌+◌, ◌^◌, Some};
ghost use Rattle.vg_syntax.specs.Numbering.{count_nodes, numbered};
ghost use Rattle.vg_tree.specs.Held.{type_at, node_at};
ghost use Rattle.vg_source.specs.Declared.{written_type};
ghost use Rattle.vg_source.specs.Resolved.{Fresh};
ghost use Rattle.vg_source.specs.Program.{scope_of};
ghost use Rattle.vg_rules.specs.Bodies.{breach};
ghost use Rattle.vg_rules.specs.Legal.{body_of};
ghost use Rattle.vg_types_views.specs.Judges.{Judges};
ghost use Rattle.vg_types_tables.specs.Views.{declarations_at, owner_view};
ghost use Rattle.vg_types_tables.specs.Declares.{Declares};
ghost use Rattle.vg_types_tables.specs.Promises.{IsOwner};
ghost use Rattle.vg_types_bodies.specs.Parameters.{params_at};
ghost use Rattle.vg_types_routines.specs.Bodies.{IsMethodBody};

use std::alloc::Global;
use vg_base::{Names, Refusal};
use vg_core::{Body, Owner};
use vg_tree::{Node, Param, TypeTree};
use vg_types_bodies::{run_body, with_parameters};
use vg_types_tables::{BodyKind, Declared, written};
use vg_types_views::Broken;

/// The body of a method of this owner, or the first breach in it. `id` is the number of its block.
pub(crate) fn method(
    alloc: Global,
    names: &Names,
    root: &Node,
    declared: &Declared,
    owner: Owner,
    params: &[Param],
    type_: &TypeTree,
    block: &Node,
    id: u32,
) -> Result<Body, Refusal<Broken>>
    requires declares { Declares names.now root.now declared.now }
    requires owner { IsOwner declared.now.tables (Some owner) }
    requires room { id + count_nodes (node_at names.now block.now) < 2 ^ 32 }
    ensures { Judges (IsMethodBody names.now root.now declared.now owner (params_at names.now params.now) (type_at names.now type_.now)
        (numbered id (node_at names.now block.now))) result
        (breach (declarations_at names.now root.now)
        (body_of (owner_view names.now declared.now (Some owner)) (written_type (type_at names.now type_.now)))
        (numbered id (node_at names.now block.now)) Fresh (scope_of (params_at names.now params.now))) }
{
    let result = match written(names, root, declared, type_) {
        Some(result) => result,
        // All types of the text are in the tables.
        None => return Err(Refusal::NoMemory),
    };
    let locals = with_parameters(alloc, names, root, declared, params)?;
    let kind = BodyKind {
        owner: Some(owner),
        result,
        in_loop: false,
    };
    run_body(alloc, names, root, declared, kind, locals, block, id)
}
