// Calls and new objects, behind arguments that were judged.
ghost use Rattle.std.specs.Prelude.{◌≡◌, ◌+◌, IfOk, IsTrue, None};
ghost use Rattle.vg_meaning.specs.Code.{Then, Do};
ghost use Rattle.vg_syntax.specs.Numbering.{numbered};
ghost use Rattle.vg_syntax.specs.Reads.{spot};
ghost use Rattle.vg_tree.specs.Held.{node_at};
ghost use Rattle.vg_source.specs.Resolved.{Fresh, Onto};
ghost use Rattle.vg_rules.specs.Bodies.{breach};
ghost use Rattle.vg_core.specs.HeldProgram.{code_of};
ghost use Rattle.vg_types_views.specs.ByText.{found};
ghost use Rattle.vg_types_tables.specs.declared.judged.Head.TheVariants.{Nothing, Value};
ghost use Rattle.vg_types_tables.specs.Views.{declarations_at, body_view, scope_view, head_view};
ghost use Rattle.vg_types_tables.specs.Declares.{Declares};
ghost use Rattle.vg_types_tables.specs.Promises.{IsHead, Leads};
ghost use Rattle.vg_types_leaves.specs.Judgements.{HasValue, Behind};
ghost use Rattle.vg_types_calls.specs.Calls.{AreParamsOf, AreMakingParams, TakesArguments};
ghost use Rattle.vg_types_expressions.specs.Arguments.{Argues, PutsFor};
ghost use Rattle.vg_types_expressions.specs.Nodes.{call_node, new_object_node};

use crate::argued::Argued;
use std::alloc::Global;
use vg_base::{Names, NoMemory, NodeId, Place, Refusal};
use vg_core::{Code, CoreType};
use vg_tree::Node;
use vg_types_calls::{Called, call_of, making_of};
use vg_types_tables::{BodyKind, Declared, Head, Locals, Standing, two};
use vg_types_views::Broken;

/// A call of what is left, with these arguments: rule 17.
pub(crate) fn called(
    alloc: Global,
    names: &Names,
    root: &Node,
    declared: &Declared,
    body: BodyKind,
    locals: &Locals,
    head: Head,
    place: Place,
    params: &[CoreType],
    args: &Node,
    argued: Argued,
    id: u32,
) -> Result<Standing, Refusal<Broken>>
    requires declares { Declares names.now root.now declared.now }
    requires head { IsHead names.now declared.now head }
    requires params { AreParamsOf declared.now head params.now }
    requires kept { breach (declarations_at names.now root.now) (body_view names.now declared.now body)
        (numbered (id + 1) (node_at names.now args.now)) Fresh (scope_view names.now declared.now locals.now) ≡ None }
    requires argued { Argues names.now root.now declared.now body locals.now params.now (numbered (id + 1) (node_at names.now args.now)) argued }
    requires typed { IsTrue argued.fits → PutsFor declared.now.tables body locals.now params.now argued }
    ensures judged { Behind names.now root.now declared.now body locals.now (call_node id (spot place) (numbered (id + 1) (node_at names.now args.now)))
        (Onto (head_view names.now declared.now head)) result }
    ensures typed { IfOk result (λ j. Leads declared.now.tables body locals.now head (code_of j.code) j.head) }
    ensures value { IfOk result (λ j. HasValue j.head) }
    ensures next { IfOk result (λ j. j.next ≡ argued.next) }
{
    // A copy: the look-up below takes the head.
    let callee = head;
    match call_of(names, root, declared, head, argued.count, id)? {
        Some(call) => {
            if argued.fits {
                let standing = behind_arguments(
                    alloc, declared, body, locals, callee, params, argued, call,
                )?;
                Ok(standing)
            } else {
                Err(Refusal::Fault(Broken {
                    rule: 17,
                    node: NodeId(id),
                }))
            }
        }
        None => Err(Refusal::Fault(Broken {
            rule: 17,
            node: NodeId(id),
        })),
    }
}

/// A new object of the class of this name, with these arguments: rule 25.
pub(crate) fn made(
    alloc: Global,
    names: &Names,
    root: &Node,
    declared: &Declared,
    body: BodyKind,
    locals: &Locals,
    place: Place,
    name: &str,
    params: &[CoreType],
    args: &Node,
    argued: Argued,
    id: u32,
) -> Result<Standing, Refusal<Broken>>
    requires declares { Declares names.now root.now declared.now }
    requires params { AreMakingParams declared.now (found name.now declared.now.classes) params.now }
    requires kept { breach (declarations_at names.now root.now) (body_view names.now declared.now body)
        (numbered (id + 1) (node_at names.now args.now)) Fresh (scope_view names.now declared.now locals.now) ≡ None }
    requires argued { Argues names.now root.now declared.now body locals.now params.now (numbered (id + 1) (node_at names.now args.now)) argued }
    requires typed { IsTrue argued.fits → PutsFor declared.now.tables body locals.now params.now argued }
    ensures judged { Behind names.now root.now declared.now body locals.now
        (new_object_node id (spot place) name.now (numbered (id + 1) (node_at names.now args.now))) Fresh result }
    ensures typed { IfOk result (λ j. Leads declared.now.tables body locals.now Nothing (code_of j.code) j.head) }
    ensures value { IfOk result (λ j. HasValue j.head) }
    ensures next { IfOk result (λ j. j.next ≡ argued.next) }
{
    match making_of(names, root, declared, name, argued.count, id) {
        Some(call) => {
            if argued.fits {
                let standing = behind_arguments(
                    alloc,
                    declared,
                    body,
                    locals,
                    Head::Nothing,
                    params,
                    argued,
                    call,
                )?;
                Ok(standing)
            } else {
                Err(Refusal::Fault(Broken {
                    rule: 25,
                    node: NodeId(id),
                }))
            }
        }
        None => Err(Refusal::Fault(Broken {
            rule: 25,
            node: NodeId(id),
        })),
    }
}

// A step behind arguments that fit.
fn behind_arguments(
    alloc: Global,
    declared: &Declared,
    body: BodyKind,
    locals: &Locals,
    head: Head,
    params: &[CoreType],
    argued: Argued,
    call: Called,
) -> Result<Standing, NoMemory>
    requires takes { TakesArguments declared.now.tables head params.now argued.count call }
    requires puts { PutsFor declared.now.tables body locals.now params.now argued }
    ensures head { IfOk result (λ j. j.head ≡ Value call.type_) }
    ensures code { IfOk result (λ j. code_of j.code ≡ Then (code_of argued.code) (Do call.step)) }
    ensures typed { IfOk result (λ j. Leads declared.now.tables body locals.now head (code_of j.code) j.head) }
    ensures next { IfOk result (λ j. j.next ≡ argued.next) }
{
    let code = two(alloc, argued.code, Code::Do(call.step))?;
    Ok(Standing {
        head: Head::Value(call.type_),
        code,
        next: argued.next,
    })
}
