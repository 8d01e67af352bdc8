// Initialisers of fields.
ghost use Rattle.std.specs.Prelude.{◌≡◌, ◌+◌, ◌<◌, ◌^◌, false, None, IfOk, IfSome};
ghost use Rattle.vg_syntax.specs.Numbering.{count_nodes, numbered};
ghost use Rattle.vg_tree.specs.Held.{node_at};
ghost use Rattle.vg_core.specs.declared.types.CoreType.TheVariants.{NoType};
ghost use Rattle.vg_types_views.specs.Judges.{Judges};
ghost use Rattle.vg_types_tables.specs.Views.{declarations_at, type_view};
ghost use Rattle.vg_types_tables.specs.Declares.{Declares, IsKnown};
ghost use Rattle.vg_types_bodies.specs.Initial.{initial_breach, IsInitial, PutsInitial};

use std::alloc::Global;
use vg_base::{Names, Refusal};
use vg_core::{Code, CoreType};
use vg_tree::Node;
use vg_tree::nothing::is_nothing;
use vg_types_expressions::expression;
use vg_types_simple::broken;
use vg_types_tables::{BodyKind, Declared, Locals, fits};
use vg_types_views::Broken;

/// Where no member is seen.
pub(crate) fn outside() -> BodyKind
    ensures { result ≡ record { owner = None; result = NoType; in_loop = false } }
{
    BodyKind {
        owner: None,
        result: CoreType::NoType,
        in_loop: false,
    }
}

/// The code of the first value of a field of this type, where one is written. `id` is the number of the field's declaration.
pub fn initial_value(
    alloc: Global,
    names: &Names,
    root: &Node,
    declared: &Declared,
    wanted: CoreType,
    node: &Node,
    id: u32,
) -> Result<Option<Code>, Refusal<Broken>>
    requires declares { Declares names.now root.now declared.now }
    requires known { IsKnown declared.now.tables wanted }
    requires room { id + 1 + count_nodes (node_at names.now node.now) < 2 ^ 32 }
    ensures judged { Judges (IsInitial names.now root.now declared.now (numbered (id + 1) (node_at names.now node.now))) result
        (initial_breach (declarations_at names.now root.now) (type_view names.now declared.now wanted) (numbered (id + 1) (node_at names.now node.now)) id) }
    ensures typed { IfOk result (λ o. IfSome o (PutsInitial declared.now.tables wanted)) }
{
    if is_nothing(node) {
        return Ok(None);
    }
    let locals = Locals::new(alloc);
    let judged = expression(
        alloc,
        names,
        root,
        declared,
        outside(),
        &locals,
        node,
        id + 1,
    )?;
    if !fits(names, root, declared, judged.type_, wanted) {
        return Err(broken(21, id));
    }
    Ok(Some(judged.code))
}
