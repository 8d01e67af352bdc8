// Statements.
ghost use Rattle.std.specs.Prelude.{◌≡◌, ◌&&◌, ◌+◌, ◌<◌, ◌^◌, ℕ, List, true, IfOk, IfSome, IsTrue, OnOk};
ghost use Rattle.vg_syntax.specs.Numbering.{count_nodes, numbered};
ghost use Rattle.vg_syntax.specs.Reads.{spot};
ghost use Rattle.vg_tree.specs.Held.{node_at, row_at, arm_row};
ghost use Rattle.vg_tree.specs.Nothing.{is_pair};
ghost use Rattle.vg_rules.specs.Breach.{◌or◌};
ghost use Rattle.vg_core.specs.declared.types.CoreType.TheVariants.{BoolType};
ghost use Rattle.vg_core.specs.HeldProgram.{code_of};
ghost use Rattle.vg_types_views.specs.Judges.{Judges};
ghost use Rattle.vg_types_tables.specs.Declares.{Declares};
ghost use Rattle.vg_types_tables.specs.Promises.{AreDeclared, IsBody, Does, Puts, Runs};
ghost use Rattle.vg_types_statements.specs.Nodes.{block_node, if_node, while_node, for_node};
ghost use Rattle.vg_types_simple.specs.Grows.{first_breach, Grows};
ghost use Rattle.vg_types_statements.specs.Arms.{condition_of, block_of, DoesArm, DoesArms, ArmsRun};

use crate::arms::{AllArms, Armed};
use crate::form::{a_loop, all_arms, an_arm};
use std::alloc::Global;
use vg_base::{Names, Place, Refusal};
use vg_core::Code;
use vg_tree::Node;
use vg_types_expressions::expression;
use vg_types_simple::{
    assign_statement, broken, eval_statement, is_bool, jump, local_statement, nothing,
    return_statement, simple_statement,
};
use vg_types_tables::{BodyKind, Declared, Done, Locals, row, two};
use vg_types_views::Broken;

/// A statement: its code, or the first breach in it. `id` is the number of its node.
#[cycle(statement)]
pub fn statement(
    alloc: Global,
    names: &Names,
    root: &Node,
    declared: &Declared,
    body: BodyKind,
    locals: &mut Locals,
    node: &Node,
    id: u32,
) -> Result<Done, Refusal<Broken>>
    requires declares { Declares names.now root.now declared.now }
    requires body { IsBody declared.now.tables body }
    requires scope { AreDeclared declared.now.tables locals.old }
    requires room { id + count_nodes (node_at names.now node.now) < 2 ^ 32 }
    ensures judged { Judges (Does names.now root.now declared.now body locals.old
        (numbered id (node_at names.now node.now)) locals.new) result
        (first_breach names.now root.now declared.now body locals.old
        (numbered id (node_at names.now node.now))) }
    ensures typed { IfOk result (λ j. Runs declared.now.tables body locals.new (code_of j.code)) }
    ensures grows { OnOk result (Grows declared.now.tables locals.old locals.new) }
    ensures next { IfOk result (λ j. j.next ≡ id + count_nodes (node_at names.now node.now)) }
{
    match node {
        Node::Nothing => Ok(Done {
            code: nothing(alloc),
            next: id,
        }),
        Node::Eval(place, value) => {
            eval_statement(
                alloc, names, root, declared, body, locals, *place, value, id,
            )
        }
        Node::Assign(place, aim, value) => assign_statement(
            alloc, names, root, declared, body, locals, *place, aim, value, id,
        ),
        Node::Return(place, value) => {
            return_statement(
                alloc, names, root, declared, body, locals, *place, value, id,
            )
        }
        Node::Local(place, name, type_, value) => local_statement(
            alloc, names, root, declared, body, locals, *place, *name, type_, value, id,
        ),
        Node::Block(place, inner) => match row_of(inner) {
            Some(nodes) => block_statement(
                alloc, names, root, declared, body, locals, *place, nodes, id,
            ),
            // No text has such a block.
            None => Err(Refusal::NoMemory),
        },
        Node::If(place, arms, otherwise) => match arms_of(arms) {
            Some(pairs) => if_statement(
                alloc, names, root, declared, body, locals, *place, pairs, otherwise, id,
            ),
            // No text has such an `if`.
            None => Err(Refusal::NoMemory),
        },
        Node::While(place, condition, inner) => while_statement(
            alloc, names, root, declared, body, locals, *place, condition, inner, id,
        ),
        Node::For(place, first, condition, next, inner) => for_statement(
            alloc, names, root, declared, body, locals, *place, first, condition, next, inner, id,
        ),
        Node::Break(_) => jump(body, Code::Break, id),
        Node::Continue(_) => jump(body, Code::Continue, id),
        // No text has another node here.
        _ => Err(Refusal::NoMemory),
    }
}

// Statements in braces: their locals are in scope to its end.
#[cycle(statement)]
fn block_statement(
    alloc: Global,
    names: &Names,
    root: &Node,
    declared: &Declared,
    body: BodyKind,
    locals: &mut Locals,
    place: Place,
    nodes: &[Node],
    id: u32,
) -> Result<Done, Refusal<Broken>>
    requires declares { Declares names.now root.now declared.now }
    requires body { IsBody declared.now.tables body }
    requires scope { AreDeclared declared.now.tables locals.old }
    requires room { id + 1 + count_nodes (row_at names.now nodes.now) < 2 ^ 32 }
    ensures judged { Judges (Does names.now root.now declared.now body locals.old
        (block_node id (spot place) (numbered (id + 1) (row_at names.now nodes.now))) locals.new) result
        (first_breach names.now root.now declared.now body locals.old
        (block_node id (spot place) (numbered (id + 1) (row_at names.now nodes.now)))) }
    ensures typed { IfOk result (λ j. Runs declared.now.tables body locals.new (code_of j.code)) }
    ensures grows { OnOk result (Grows declared.now.tables locals.old locals.new) }
    ensures next { IfOk result (λ j. j.next ≡ id + 1 + count_nodes (row_at names.now nodes.now)) }
{
    let count = locals.in_scope.len();
    let done = statements(alloc, names, root, declared, body, locals, nodes, id + 1)?;
    locals.leave(count);
    Ok(done)
}

/// Statements, in order of the text. `id` is the number of the first of their nodes.
#[cycle(statement)]
pub fn statements(
    alloc: Global,
    names: &Names,
    root: &Node,
    declared: &Declared,
    body: BodyKind,
    locals: &mut Locals,
    nodes: &[Node],
    id: u32,
) -> Result<Done, Refusal<Broken>>
    requires declares { Declares names.now root.now declared.now }
    requires body { IsBody declared.now.tables body }
    requires scope { AreDeclared declared.now.tables locals.old }
    requires room { id + count_nodes (row_at names.now nodes.now) < 2 ^ 32 }
    ensures judged { Judges (Does names.now root.now declared.now body locals.old
        (numbered id (row_at names.now nodes.now)) locals.new) result
        (first_breach names.now root.now declared.now body locals.old
        (numbered id (row_at names.now nodes.now))) }
    ensures typed { IfOk result (λ j. Runs declared.now.tables body locals.new (code_of j.code)) }
    ensures grows { OnOk result (Grows declared.now.tables locals.old locals.new) }
    ensures next { IfOk result (λ j. j.next ≡ id + count_nodes (row_at names.now nodes.now)) }
{
    let mut codes = Vec::new(alloc);
    let mut next = id;
    'each: for node in nodes {
        let done = match statement(alloc, names, root, declared, body, locals, node, next) {
            Ok(done) => done,
            Err(fault) => return Err(fault),
        };
        codes.push(done.code)?;
        next = done.next;
    }
    Ok(Done {
        code: row(codes),
        next,
    })
}

// A `while`.
#[cycle(statement)]
fn while_statement(
    alloc: Global,
    names: &Names,
    root: &Node,
    declared: &Declared,
    body: BodyKind,
    locals: &mut Locals,
    place: Place,
    condition: &Node,
    inner: &Node,
    id: u32,
) -> Result<Done, Refusal<Broken>>
    requires declares { Declares names.now root.now declared.now }
    requires body { IsBody declared.now.tables body }
    requires scope { AreDeclared declared.now.tables locals.old }
    requires room { id + 1 + count_nodes (node_at names.now condition.now) + count_nodes (node_at names.now inner.now) < 2 ^ 32 }
    ensures judged { Judges (Does names.now root.now declared.now body locals.old
        (while_node id (spot place) (numbered (id + 1) (node_at names.now condition.now))
        (numbered (id + 1 + count_nodes (node_at names.now condition.now)) (node_at names.now inner.now))) locals.new) result
        (first_breach names.now root.now declared.now body locals.old
        (while_node id (spot place) (numbered (id + 1) (node_at names.now condition.now))
        (numbered (id + 1 + count_nodes (node_at names.now condition.now)) (node_at names.now inner.now)))) }
    ensures typed { IfOk result (λ j. Runs declared.now.tables body locals.new (code_of j.code)) }
    ensures grows { OnOk result (Grows declared.now.tables locals.old locals.new) }
    ensures next { IfOk result (λ j. j.next ≡ id + 1 + count_nodes (node_at names.now condition.now) + count_nodes (node_at names.now inner.now)) }
{
    let judged = expression(
        alloc,
        names,
        root,
        declared,
        body,
        locals,
        condition,
        id + 1,
    )?;
    let done = statement(
        alloc,
        names,
        root,
        declared,
        looped(body),
        locals,
        inner,
        judged.next,
    )?;
    if !is_bool(names, declared, judged.type_) {
        return Err(broken(22, id));
    }
    let code = a_loop(alloc, judged.code, done.code, nothing(alloc))?;
    Ok(Done {
        code,
        next: done.next,
    })
}

// A `for`.
#[cycle(statement)]
fn for_statement(
    alloc: Global,
    names: &Names,
    root: &Node,
    declared: &Declared,
    body: BodyKind,
    locals: &mut Locals,
    place: Place,
    first: &Node,
    condition: &Node,
    next: &Node,
    inner: &Node,
    id: u32,
) -> Result<Done, Refusal<Broken>>
    requires declares { Declares names.now root.now declared.now }
    requires body { IsBody declared.now.tables body }
    requires scope { AreDeclared declared.now.tables locals.old }
    requires room { id + 1 + count_nodes (node_at names.now first.now) + count_nodes (node_at names.now condition.now) + count_nodes (node_at
        names.now next.now) + count_nodes (node_at names.now inner.now) < 2 ^ 32 }
    ensures judged { Judges (Does names.now root.now declared.now body locals.old
        (for_node id (spot place) (numbered (id + 1) (node_at names.now first.now))
        (numbered (id + 1 + count_nodes (node_at names.now first.now)) (node_at names.now condition.now))
        (numbered (id + 1 + count_nodes (node_at names.now first.now) + count_nodes (node_at names.now condition.now)) (node_at names.now next.now))
        (numbered (id + 1 + count_nodes (node_at names.now first.now) + count_nodes (node_at names.now condition.now) + count_nodes (node_at
        names.now next.now)) (node_at names.now inner.now))) locals.new) result
        (first_breach names.now root.now declared.now body locals.old
        (for_node id (spot place) (numbered (id + 1) (node_at names.now first.now))
        (numbered (id + 1 + count_nodes (node_at names.now first.now)) (node_at names.now condition.now))
        (numbered (id + 1 + count_nodes (node_at names.now first.now) + count_nodes (node_at names.now condition.now)) (node_at names.now next.now))
        (numbered (id + 1 + count_nodes (node_at names.now first.now) + count_nodes (node_at names.now condition.now) + count_nodes (node_at
        names.now next.now)) (node_at names.now inner.now)))) }
    ensures typed { IfOk result (λ j. Runs declared.now.tables body locals.new (code_of j.code)) }
    ensures grows { OnOk result (Grows declared.now.tables locals.old locals.new) }
    ensures next { IfOk result (λ j. j.next ≡ id + 1 + count_nodes (node_at names.now first.now) + count_nodes (node_at names.now condition.now) +
        count_nodes (node_at names.now next.now) + count_nodes (node_at names.now inner.now)) }
{
    let before = simple_statement(alloc, names, root, declared, body, locals, first, id + 1)?;
    let judged = expression(
        alloc,
        names,
        root,
        declared,
        body,
        locals,
        condition,
        before.next,
    )?;
    let behind = simple_statement(
        alloc,
        names,
        root,
        declared,
        body,
        locals,
        next,
        judged.next,
    )?;
    let done = statement(
        alloc,
        names,
        root,
        declared,
        looped(body),
        locals,
        inner,
        behind.next,
    )?;
    if !is_bool(names, declared, judged.type_) {
        return Err(broken(22, id));
    }
    let loop_code = a_loop(alloc, judged.code, done.code, behind.code)?;
    let code = two(alloc, before.code, loop_code)?;
    Ok(Done {
        code,
        next: done.next,
    })
}

// An `if`.
#[cycle(statement)]
fn if_statement(
    alloc: Global,
    names: &Names,
    root: &Node,
    declared: &Declared,
    body: BodyKind,
    locals: &mut Locals,
    place: Place,
    pairs: &[Node],
    otherwise: &Node,
    id: u32,
) -> Result<Done, Refusal<Broken>>
    requires declares { Declares names.now root.now declared.now }
    requires body { IsBody declared.now.tables body }
    requires scope { AreDeclared declared.now.tables locals.old }
    requires room { id + 1 + count_nodes (arm_row names.now pairs.now) + count_nodes (node_at names.now otherwise.now) < 2 ^ 32 }
    ensures judged { Judges (Does names.now root.now declared.now body locals.old
        (if_node id (spot place) (numbered (id + 1) (arm_row names.now pairs.now))
        (numbered (id + 1 + count_nodes (arm_row names.now pairs.now)) (node_at names.now otherwise.now))) locals.new) result
        (first_breach names.now root.now declared.now body locals.old
        (if_node id (spot place) (numbered (id + 1) (arm_row names.now pairs.now))
        (numbered (id + 1 + count_nodes (arm_row names.now pairs.now)) (node_at names.now otherwise.now)))) }
    ensures typed { IfOk result (λ j. Runs declared.now.tables body locals.new (code_of j.code)) }
    ensures grows { OnOk result (Grows declared.now.tables locals.old locals.new) }
    ensures next { IfOk result (λ j. j.next ≡ id + 1 + count_nodes (arm_row names.now pairs.now) + count_nodes (node_at names.now otherwise.now)) }
{
    let arms = arms(alloc, names, root, declared, body, locals, pairs, id + 1)?;
    let last = statement(
        alloc, names, root, declared, body, locals, otherwise, arms.next,
    )?;
    if !arms.holds {
        return Err(broken(22, id));
    }
    let code = all_arms(alloc, arms.codes, last.code)?;
    Ok(Done {
        code,
        next: last.next,
    })
}

// The arms of an `if`, in order of the text. `id` is the number of the first of their nodes.
#[cycle(statement)]
fn arms(
    alloc: Global,
    names: &Names,
    root: &Node,
    declared: &Declared,
    body: BodyKind,
    locals: &mut Locals,
    pairs: &[Node],
    id: u32,
) -> Result<AllArms, Refusal<Broken>>
    requires declares { Declares names.now root.now declared.now }
    requires body { IsBody declared.now.tables body }
    requires scope { AreDeclared declared.now.tables locals.old }
    requires room { id + count_nodes (arm_row names.now pairs.now) < 2 ^ 32 }
    ensures judged { Judges (DoesArms names.now root.now declared.now body locals.old (numbered id (arm_row names.now pairs.now)) locals.new) result
        (first_breach names.now root.now declared.now body locals.old (numbered id (arm_row names.now pairs.now))) }
    ensures typed { IfOk result (λ j. IsTrue j.holds → ArmsRun declared.now.tables body locals.new.declared j.codes.items) }
    ensures grows { OnOk result (Grows declared.now.tables locals.old locals.new) }
    ensures next { IfOk result (λ j. j.next ≡ id + count_nodes (arm_row names.now pairs.now)) }
{
    let mut codes = Vec::new(alloc);
    let mut holds = true;
    let mut next = id;
    'each: for pair in pairs {
        let one = match arm(alloc, names, root, declared, body, locals, pair, next) {
            Ok(one) => one,
            Err(fault) => return Err(fault),
        };
        let code = an_arm(alloc, one.condition, one.block)?;
        codes.push(code)?;
        holds = both(holds, one.holds);
        next = one.next;
    }
    Ok(AllArms { codes, holds, next })
}

// An arm. `id` is the number of its condition.
#[cycle(statement)]
fn arm(
    alloc: Global,
    names: &Names,
    root: &Node,
    declared: &Declared,
    body: BodyKind,
    locals: &mut Locals,
    pair: &Node,
    id: u32,
) -> Result<Armed, Refusal<Broken>>
    requires declares { Declares names.now root.now declared.now }
    requires body { IsBody declared.now.tables body }
    requires scope { AreDeclared declared.now.tables locals.old }
    requires room { id + count_nodes (condition_of names.now pair.now) + count_nodes (block_of names.now pair.now) < 2 ^ 32 }
    ensures judged { Judges (DoesArm names.now root.now declared.now body locals.old (numbered id (condition_of names.now pair.now))
        (numbered (id + count_nodes (condition_of names.now pair.now)) (block_of names.now pair.now)) locals.new) result
        (first_breach names.now root.now declared.now body locals.old (numbered id (condition_of names.now pair.now))
        or first_breach names.now root.now declared.now body locals.old
        (numbered (id + count_nodes (condition_of names.now pair.now)) (block_of names.now pair.now))) }
    ensures pair { OnOk result (is_pair pair.now ≡ true) }
    ensures test { IfOk result (λ j. IsTrue j.holds → Puts declared.now.tables body locals.old (code_of j.condition) BoolType) }
    ensures typed { IfOk result (λ j. Runs declared.now.tables body locals.new (code_of j.block)) }
    ensures grows { OnOk result (Grows declared.now.tables locals.old locals.new) }
    ensures next { IfOk result (λ j. j.next ≡ id + count_nodes (condition_of names.now pair.now) + count_nodes (block_of names.now pair.now)) }
{
    match pair {
        Node::Pair(condition, block) => {
            let judged = expression(alloc, names, root, declared, body, locals, condition, id)?;
            let done = statement(
                alloc,
                names,
                root,
                declared,
                body,
                locals,
                block,
                judged.next,
            )?;
            Ok(Armed {
                condition: judged.code,
                block: done.code,
                holds: is_bool(names, declared, judged.type_),
                next: done.next,
            })
        }
        // No text has another node here.
        _ => Err(Refusal::NoMemory),
    }
}

// Whether both hold.
fn both(one: bool, other: bool) -> bool
    ensures { result ≡ (one && other) }
{
    one && other
}

// The body of a loop.
fn looped(body: BodyKind) -> BodyKind
    ensures { result ≡ record body { in_loop = true } }
{
    BodyKind {
        in_loop: true,
        ..body
    }
}

// The nodes of a row.
fn row_of(node: &Node) -> Option<&[Node]>
    ensures { IfSome result (λ nodes. (texts : List (List ℕ)) → node_at texts node.now ≡ row_at texts nodes.now) }
{
    match node {
        Node::Row(nodes) => Some(nodes.as_slice()),
        _ => None,
    }
}

// The pairs of a row of pairs.
fn arms_of(node: &Node) -> Option<&[Node]>
    ensures { IfSome result (λ pairs. (texts : List (List ℕ)) → node_at texts node.now ≡ arm_row texts pairs.now) }
{
    match node {
        Node::Arms(pairs) => Some(pairs.as_slice()),
        _ => None,
    }
}
