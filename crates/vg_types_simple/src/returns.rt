// Returns.
ghost use Rattle.std.specs.Prelude.{◌≡◌, ◌+◌, ◌<◌, ◌^◌, IfOk, IsTrue};
ghost use Rattle.vg_meaning.specs.Code.{Nothing, Then, Do, Return};
ghost use Rattle.vg_syntax.specs.Numbering.{count_nodes, numbered};
ghost use Rattle.vg_syntax.specs.Reads.{spot};
ghost use Rattle.vg_tree.specs.Held.{node_at};
ghost use Rattle.vg_rules.specs.Inherited.{has_no_type};
ghost use Rattle.vg_core.specs.declared.types.CoreType.TheVariants.{NoType};
ghost use Rattle.vg_core.specs.declared.step.Step.TheVariants.{Put};
ghost use Rattle.vg_core.specs.declared.value.CoreValue.TheVariants.{Null};
ghost use Rattle.vg_core.specs.HeldProgram.{code_of};
ghost use Rattle.vg_core.specs.Typing.{Sub};
ghost use Rattle.vg_types_views.specs.Judges.{Judges};
ghost use Rattle.vg_types_tables.specs.Views.{declarations_at, type_view};
ghost use Rattle.vg_types_tables.specs.Declares.{Declares, IsKnown};
ghost use Rattle.vg_types_tables.specs.Promises.{AreDeclared, IsBody, Does, Runs};
ghost use Rattle.vg_types_simple.specs.Nodes.{return_node};
ghost use Rattle.vg_types_simple.specs.Grows.{first_breach};
ghost use Rattle.vg_types_simple.specs.Asked.{asked, return_fits};

use crate::fault::broken;
use crate::values::{is_no_type, unwritten};
use std::alloc::Global;
use vg_base::{Names, Place, Refusal};
use vg_core::{Code, CoreType};
use vg_tree::Node;
use vg_tree::nothing::is_nothing;
use vg_types_expressions::expression;
use vg_types_tables::{BodyKind, Declared, Done, Locals, fits, two};
use vg_types_views::Broken;

/// A `return`.
pub fn return_statement(
    alloc: Global,
    names: &Names,
    root: &Node,
    declared: &Declared,
    body: BodyKind,
    locals: &Locals,
    place: Place,
    value: &Node,
    id: u32,
) -> Result<Done, Refusal<Broken>>
    requires declares { Declares names.now root.now declared.now }
    requires body { IsBody declared.now.tables body }
    requires scope { AreDeclared declared.now.tables locals.now }
    requires room { id + 1 + count_nodes (node_at names.now value.now) < 2 ^ 32 }
    ensures judged { Judges (Does names.now root.now declared.now body locals.now
        (return_node id (spot place) (numbered (id + 1) (node_at names.now value.now))) locals.now) result
        (first_breach names.now root.now declared.now body locals.now (return_node id (spot place) (numbered (id + 1) (node_at names.now value.now)))) }
    ensures typed { IfOk result (λ j. Runs declared.now.tables body locals.now (code_of j.code)) }
    ensures next { IfOk result (λ j. j.next ≡ id + 1 + count_nodes (node_at names.now value.now)) }
{
    if is_nothing(value) {
        return return_nothing(alloc, names, declared, body, id);
    }
    let judged = expression(alloc, names, root, declared, body, locals, value, id + 1)?;
    if !may_return(names, root, declared, judged.type_, body.result) {
        return Err(broken(23, id));
    }
    let code = two(alloc, judged.code, Code::Return)?;
    Ok(Done {
        code,
        next: judged.next,
    })
}

// A `return` without a value.
fn return_nothing(
    alloc: Global,
    names: &Names,
    declared: &Declared,
    body: BodyKind,
    id: u32,
) -> Result<Done, Refusal<Broken>>
    requires { id + 1 < 2 ^ 32 }
    ensures judged { Judges (λ j. (code_of j.code ≡ Then (Then (Do (Put Null)) Nothing) Return) × (body.result ≡ NoType)) result
        (asked (has_no_type (type_view names.now declared.now body.result)) 23 id) }
    ensures next { IfOk result (λ j. j.next ≡ id + 1) }
{
    if !is_no_type(names, declared, body.result) {
        return Err(broken(23, id));
    }
    let code = two(alloc, unwritten(alloc, CoreType::NoType)?, Code::Return)?;
    Ok(Done { code, next: id + 1 })
}

// Whether a value of this type may be returned where there is such a result.
fn may_return(
    names: &Names,
    root: &Node,
    declared: &Declared,
    type_: CoreType,
    wanted: CoreType,
) -> bool
    requires declares { Declares names.now root.now declared.now }
    requires known { IsKnown declared.now.tables type_ }
    requires wanted { IsKnown declared.now.tables wanted }
    ensures exact { result
        ≡ return_fits (declarations_at names.now root.now) (type_view names.now declared.now type_) (type_view names.now declared.now wanted) }
    ensures sub { IsTrue result → Sub declared.now.tables type_ wanted }
{
    if is_no_type(names, declared, wanted) {
        false
    } else {
        fits(names, root, declared, type_, wanted)
    }
}
