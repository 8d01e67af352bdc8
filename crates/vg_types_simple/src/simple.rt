// Statements that declare nothing and have no statement in them.
ghost use Rattle.std.specs.Prelude.{◌≡◌, ◌+◌, ◌<◌, ◌^◌, IfOk};
ghost use Rattle.vg_syntax.specs.Numbering.{count_nodes, numbered};
ghost use Rattle.vg_syntax.specs.Reads.{spot};
ghost use Rattle.vg_tree.specs.Held.{node_at};
ghost use Rattle.vg_core.specs.HeldProgram.{code_of};
ghost use Rattle.vg_types_views.specs.Judges.{Judges};
ghost use Rattle.vg_types_tables.specs.Declares.{Declares};
ghost use Rattle.vg_types_tables.specs.Promises.{AreDeclared, IsBody, Does, Runs};
ghost use Rattle.vg_types_simple.specs.Nodes.{eval_node, assign_node};
ghost use Rattle.vg_types_simple.specs.Grows.{first_breach};

use crate::fault::broken;
use crate::form::nothing;
use std::alloc::Global;
use vg_base::{Names, Place, Refusal};
use vg_core::{Code, Step};
use vg_tree::Node;
use vg_types_expressions::{expression, target};
use vg_types_tables::{BodyKind, Declared, Done, Locals, fits, three, two};
use vg_types_views::Broken;

/// What may stand in the head of a `for`: an expression, an assignment, or nothing.
pub fn simple_statement(
    alloc: Global,
    names: &Names,
    root: &Node,
    declared: &Declared,
    body: BodyKind,
    locals: &Locals,
    node: &Node,
    id: u32,
) -> Result<Done, Refusal<Broken>>
    requires declares { Declares names.now root.now declared.now }
    requires body { IsBody declared.now.tables body }
    requires scope { AreDeclared declared.now.tables locals.now }
    requires room { id + count_nodes (node_at names.now node.now) < 2 ^ 32 }
    ensures judged { Judges (Does names.now root.now declared.now body locals.now (numbered id (node_at names.now node.now)) locals.now) result
        (first_breach names.now root.now declared.now body locals.now (numbered id (node_at names.now node.now))) }
    ensures typed { IfOk result (λ j. Runs declared.now.tables body locals.now (code_of j.code)) }
    ensures next { IfOk result (λ j. j.next ≡ id + count_nodes (node_at names.now node.now)) }
{
    match node {
        Node::Nothing => Ok(Done {
            code: nothing(alloc),
            next: id,
        }),
        Node::Eval(place, value) => {
            eval_statement(
                alloc, names, root, declared, body, locals, *place, value, id,
            )
        }
        Node::Assign(place, aim, value) => assign_statement(
            alloc, names, root, declared, body, locals, *place, aim, value, id,
        ),
        // No text has another node here.
        _ => Err(Refusal::NoMemory),
    }
}

/// An expression as a statement: its value is dropped.
#[tactic(auto, using(crate::proofs::Typing::forgets))]
pub fn eval_statement(
    alloc: Global,
    names: &Names,
    root: &Node,
    declared: &Declared,
    body: BodyKind,
    locals: &Locals,
    place: Place,
    value: &Node,
    id: u32,
) -> Result<Done, Refusal<Broken>>
    requires declares { Declares names.now root.now declared.now }
    requires body { IsBody declared.now.tables body }
    requires scope { AreDeclared declared.now.tables locals.now }
    requires room { id + 1 + count_nodes (node_at names.now value.now) < 2 ^ 32 }
    ensures judged { Judges (Does names.now root.now declared.now body locals.now
        (eval_node id (spot place) (numbered (id + 1) (node_at names.now value.now))) locals.now) result
        (first_breach names.now root.now declared.now body locals.now (eval_node id (spot place) (numbered (id + 1) (node_at names.now value.now)))) }
    ensures typed { IfOk result (λ j. Runs declared.now.tables body locals.now (code_of j.code)) }
    ensures next { IfOk result (λ j. j.next ≡ id + 1 + count_nodes (node_at names.now value.now)) }
{
    let judged = expression(alloc, names, root, declared, body, locals, value, id + 1)?;
    let code = two(alloc, judged.code, Code::Do(Step::Forget))?;
    Ok(Done {
        code,
        next: judged.next,
    })
}

/// An assignment.
pub fn assign_statement(
    alloc: Global,
    names: &Names,
    root: &Node,
    declared: &Declared,
    body: BodyKind,
    locals: &Locals,
    place: Place,
    aim: &Node,
    value: &Node,
    id: u32,
) -> Result<Done, Refusal<Broken>>
    requires declares { Declares names.now root.now declared.now }
    requires body { IsBody declared.now.tables body }
    requires scope { AreDeclared declared.now.tables locals.now }
    requires room { id + 1 + count_nodes (node_at names.now aim.now) + count_nodes (node_at names.now value.now) < 2 ^ 32 }
    ensures judged { Judges (Does names.now root.now declared.now body locals.now
        (assign_node id (spot place) (numbered (id + 1) (node_at names.now aim.now))
        (numbered (id + 1 + count_nodes (node_at names.now aim.now)) (node_at names.now value.now))) locals.now) result
        (first_breach names.now root.now declared.now body locals.now
        (assign_node id (spot place) (numbered (id + 1) (node_at names.now aim.now))
        (numbered (id + 1 + count_nodes (node_at names.now aim.now)) (node_at names.now value.now)))) }
    ensures typed { IfOk result (λ j. Runs declared.now.tables body locals.now (code_of j.code)) }
    ensures next { IfOk result (λ j. j.next ≡ id + 1 + count_nodes (node_at names.now aim.now) + count_nodes (node_at names.now value.now)) }
{
    let aimed = target(alloc, names, root, declared, body, locals, aim, id + 1)?;
    let judged = expression(
        alloc, names, root, declared, body, locals, value, aimed.next,
    )?;
    let storing = match aimed.place {
        Some(storing) => storing,
        None => return Err(broken(21, id)),
    };
    if !fits(names, root, declared, judged.type_, storing.type_) {
        return Err(broken(21, id));
    }
    let code = three(alloc, storing.aims, judged.code, Code::Do(storing.store))?;
    Ok(Done {
        code,
        next: judged.next,
    })
}
