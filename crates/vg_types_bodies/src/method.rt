// The bodies of methods.
ghost use Rattle.std.specs.Prelude.{◌≡◌, ◌+◌, ◌<◌, ◌^◌, Some, length, IfOk};
ghost use Rattle.std.specs.List.{AllByRecursion};
ghost use Rattle.vg_syntax.specs.Numbering.{count_nodes, numbered};
ghost use Rattle.vg_tree.specs.Held.{node_at};
ghost use Rattle.vg_source.specs.Declared.{row_of};
ghost use Rattle.vg_source.specs.Resolved.{Fresh, resolved};
ghost use Rattle.vg_source.specs.Program.{scope_of};
ghost use Rattle.vg_rules.specs.Bodies.{breach};
ghost use Rattle.vg_rules.specs.Legal.{body_of};
ghost use Rattle.vg_core.specs.HeldProgram.{body_at};
ghost use Rattle.vg_core.specs.Typing.{TypedBody};
ghost use Rattle.vg_types_views.specs.Judges.{Judges};
ghost use Rattle.vg_types_tables.specs.Views.{declarations_at, owner_view, type_view, row_view};
ghost use Rattle.vg_types_tables.specs.Declares.{Declares, IsKnown};
ghost use Rattle.vg_types_tables.specs.Promises.{IsOwner};
ghost use Rattle.vg_types_bodies.specs.Parameters.{params_at};
ghost use Rattle.vg_types_bodies.specs.Bodies.{IsBodyOf, signature_at};

use crate::parameters::with_parameters;
use crate::running::run_body;
use std::alloc::Global;
use vg_base::{Names, Refusal};
use vg_core::{Body, Method};
use vg_tree::{Node, Param};
use vg_types_tables::{BodyKind, Declared};
use vg_types_views::Broken;

/// The body of a method, whose signature in the tables is the one that is written. `id` is the number of the node of its block.
pub fn method_body(
    alloc: Global,
    names: &Names,
    root: &Node,
    declared: &Declared,
    method: &Method,
    params: &[Param],
    node: &Node,
    id: u32,
) -> Result<Body, Refusal<Broken>>
    requires declares { Declares names.now root.now declared.now }
    requires owner { IsOwner declared.now.tables (Some method.now.owner) }
    requires params { AllByRecursion (IsKnown declared.now.tables) method.now.params }
    requires value { IsKnown declared.now.tables method.now.result }
    requires same { row_view names.now declared.now method.now.params ≡ row_of (params_at names.now params.now) }
    requires room { id + count_nodes (node_at names.now node.now) < 2 ^ 32 }
    ensures judged { Judges
        (IsBodyOf names.now declared.now (length method.now.params)
        (resolved (declarations_at names.now root.now) (owner_view names.now declared.now (Some method.now.owner))
        (numbered id (node_at names.now node.now)) Fresh (scope_of (params_at names.now params.now)))) result
        (breach (declarations_at names.now root.now)
        (body_of (owner_view names.now declared.now (Some method.now.owner)) (type_view names.now declared.now method.now.result))
        (numbered id (node_at names.now node.now)) Fresh (scope_of (params_at names.now params.now))) }
    ensures typed { IfOk result (λ b. TypedBody declared.now.tables (signature_at method.now) (body_at b)) }
{
    let locals = with_parameters(alloc, names, root, declared, params)?;
    let kind = BodyKind {
        owner: Some(method.owner),
        result: method.result,
        in_loop: false,
    };
    run_body(alloc, names, root, declared, kind, locals, node, id)
}
