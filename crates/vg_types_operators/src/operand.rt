// Parts with an operand.
ghost use Rattle.std.specs.Prelude.{◌≡◌, IfOk};
ghost use Rattle.vg_meaning.specs.Code.{If};
ghost use Rattle.vg_syntax.specs.declared.kind.Kind.TheVariants.{AndAnd, OrOr};
ghost use Rattle.vg_syntax.specs.Reads.{spot};
ghost use Rattle.vg_syntax.specs.Numbering.{with_id};
ghost use Rattle.vg_source.specs.Resolved.{IsValue, part};
ghost use Rattle.vg_rules.specs.Breach.{asks};
ghost use Rattle.vg_rules.specs.Operands.{operands_keep};
ghost use Rattle.vg_core.specs.HeldProgram.{code_of};
ghost use Rattle.vg_types_tables.specs.declared.judged.Head.TheVariants.{Value};
ghost use Rattle.vg_types_views.specs.Judges.{Judges};
ghost use Rattle.vg_types_tables.specs.Views.{declarations_at, type_view, head_view};
ghost use Rattle.vg_types_tables.specs.Declares.{Declares, IsKnown};
ghost use Rattle.vg_types_tables.specs.Promises.{IsHead, Puts, Leads};
ghost use Rattle.vg_types_leaves.specs.Judgements.{HasValue, Shows};
ghost use Rattle.vg_types_operators.specs.Judged.{value_of};
ghost use Rattle.vg_types_operators.specs.Operators.{sign_of};

use crate::operator::{are_bools, operator, value_type};
use std::alloc::Global;
use vg_base::{Names, NoMemory, NodeId, Place, Refusal};
use vg_core::{Code, CoreType, CoreValue, Operator, Step};
use vg_syntax::Kind;
use vg_tree::Node;
use vg_types_tables::{BodyKind, Declared, Head, Judged, Locals, Standing, two};
use vg_types_views::Broken;

/// A part with an operand that was judged, behind what waits: rule 18.
pub fn part(
    alloc: Global,
    names: &Names,
    root: &Node,
    declared: &Declared,
    body: BodyKind,
    locals: &Locals,
    head: Head,
    place: Place,
    op: Kind,
    operand: Judged,
    id: u32,
) -> Result<Standing, Refusal<Broken>>
    requires declares { Declares names.now root.now declared.now }
    requires head { IsHead names.now declared.now head }
    requires known { IsKnown declared.now.tables operand.type_ }
    requires typed { Puts declared.now.tables body locals.now (code_of operand.code) operand.type_ }
    ensures judged { Judges (Shows names.now declared.now locals.now
        (part id op (head_view names.now declared.now head) (value_of names.now declared.now locals.now operand))) result
        (asks (operands_keep (declarations_at names.now root.now) op (head_view names.now declared.now head)
        (IsValue (type_view names.now declared.now operand.type_))) 18 (with_id id (spot place))) }
    ensures typed { IfOk result (λ j. Leads declared.now.tables body locals.now head (code_of j.code) j.head) }
    ensures value { IfOk result (λ j. HasValue j.head) }
    ensures next { IfOk result (λ j. j.next ≡ operand.next) }
{
    match head {
        Head::Value(left) => behind_value(
            alloc, names, root, declared, body, locals, left, place, op, operand, id,
        ),
        Head::Nothing
        | Head::Component(_)
        | Head::Device(_)
        | Head::OwnMethod(_, _, _)
        | Head::ItsMethod(_) => Err(Refusal::Fault(Broken {
            rule: 18,
            node: NodeId(id),
        })),
    }
}

// A part behind a value of this type.
fn behind_value(
    alloc: Global,
    names: &Names,
    root: &Node,
    declared: &Declared,
    body: BodyKind,
    locals: &Locals,
    left: CoreType,
    place: Place,
    op: Kind,
    operand: Judged,
    id: u32,
) -> Result<Standing, Refusal<Broken>>
    requires declares { Declares names.now root.now declared.now }
    requires left { IsKnown declared.now.tables left }
    requires known { IsKnown declared.now.tables operand.type_ }
    requires typed { Puts declared.now.tables body locals.now (code_of operand.code) operand.type_ }
    ensures judged { Judges (Shows names.now declared.now locals.now
        (part id op (IsValue (type_view names.now declared.now left)) (value_of names.now declared.now locals.now operand))) result
        (asks (operands_keep (declarations_at names.now root.now) op (IsValue (type_view names.now declared.now left))
        (IsValue (type_view names.now declared.now operand.type_))) 18 (with_id id (spot place))) }
    ensures typed { IfOk result (λ j. Leads declared.now.tables body locals.now (Value left) (code_of j.code) j.head) }
    ensures value { IfOk result (λ j. HasValue j.head) }
    ensures next { IfOk result (λ j. j.next ≡ operand.next) }
{
    match op {
        Kind::AndAnd => conjunction(
            alloc, names, root, declared, body, locals, left, place, operand, id,
        ),
        Kind::OrOr => disjunction(
            alloc, names, root, declared, body, locals, left, place, operand, id,
        ),
        _ => match operator(op) {
            Some(found) => operated(
                alloc, names, root, declared, body, locals, left, place, found, operand, id,
            ),
            // No tree of a text has another sign before an operand.
            None => Err(Refusal::NoMemory),
        },
    }
}

// An operator that takes both of its operands.
fn operated(
    alloc: Global,
    names: &Names,
    root: &Node,
    declared: &Declared,
    body: BodyKind,
    locals: &Locals,
    left: CoreType,
    place: Place,
    operator: Operator,
    operand: Judged,
    id: u32,
) -> Result<Standing, Refusal<Broken>>
    requires declares { Declares names.now root.now declared.now }
    requires left { IsKnown declared.now.tables left }
    requires known { IsKnown declared.now.tables operand.type_ }
    requires typed { Puts declared.now.tables body locals.now (code_of operand.code) operand.type_ }
    ensures judged { Judges (Shows names.now declared.now locals.now
        (part id (sign_of operator) (IsValue (type_view names.now declared.now left)) (value_of names.now declared.now locals.now operand))) result
        (asks (operands_keep (declarations_at names.now root.now) (sign_of operator) (IsValue (type_view names.now declared.now left))
        (IsValue (type_view names.now declared.now operand.type_))) 18 (with_id id (spot place))) }
    ensures typed { IfOk result (λ j. Leads declared.now.tables body locals.now (Value left) (code_of j.code) j.head) }
    ensures value { IfOk result (λ j. HasValue j.head) }
    ensures next { IfOk result (λ j. j.next ≡ operand.next) }
{
    let found = value_type(names, root, declared, operator, left, operand.type_)?;
    match found {
        Some(type_) => {
            let step = Step::Operate(id, operator, left, operand.type_);
            let code = two(alloc, operand.code, Code::Do(step))?;
            Ok(Standing {
                head: Head::Value(type_),
                code,
                next: operand.next,
            })
        }
        None => Err(Refusal::Fault(Broken {
            rule: 18,
            node: NodeId(id),
        })),
    }
}

// `&&`: its right operand is taken only where the left one is true.
fn conjunction(
    alloc: Global,
    names: &Names,
    root: &Node,
    declared: &Declared,
    body: BodyKind,
    locals: &Locals,
    left: CoreType,
    place: Place,
    operand: Judged,
    id: u32,
) -> Result<Standing, Refusal<Broken>>
    requires typed { Puts declared.now.tables body locals.now (code_of operand.code) operand.type_ }
    ensures judged { Judges (Shows names.now declared.now locals.now
        (part id AndAnd (IsValue (type_view names.now declared.now left)) (value_of names.now declared.now locals.now operand))) result
        (asks (operands_keep (declarations_at names.now root.now) AndAnd (IsValue (type_view names.now declared.now left))
        (IsValue (type_view names.now declared.now operand.type_))) 18 (with_id id (spot place))) }
    ensures typed { IfOk result (λ j. Leads declared.now.tables body locals.now (Value left) (code_of j.code) j.head) }
    ensures value { IfOk result (λ j. HasValue j.head) }
    ensures next { IfOk result (λ j. j.next ≡ operand.next) }
{
    if !are_bools(left, operand.type_) {
        return Err(Refusal::Fault(Broken {
            rule: 18,
            node: NodeId(id),
        }));
    }
    let code = choice(
        alloc,
        operand.code,
        Code::Do(Step::Put(CoreValue::Bool(false))),
    )?;
    Ok(Standing {
        head: Head::Value(CoreType::BoolType),
        code,
        next: operand.next,
    })
}

// `||`: its right operand is taken only where the left one is false.
fn disjunction(
    alloc: Global,
    names: &Names,
    root: &Node,
    declared: &Declared,
    body: BodyKind,
    locals: &Locals,
    left: CoreType,
    place: Place,
    operand: Judged,
    id: u32,
) -> Result<Standing, Refusal<Broken>>
    requires typed { Puts declared.now.tables body locals.now (code_of operand.code) operand.type_ }
    ensures judged { Judges (Shows names.now declared.now locals.now
        (part id OrOr (IsValue (type_view names.now declared.now left)) (value_of names.now declared.now locals.now operand))) result
        (asks (operands_keep (declarations_at names.now root.now) OrOr (IsValue (type_view names.now declared.now left))
        (IsValue (type_view names.now declared.now operand.type_))) 18 (with_id id (spot place))) }
    ensures typed { IfOk result (λ j. Leads declared.now.tables body locals.now (Value left) (code_of j.code) j.head) }
    ensures value { IfOk result (λ j. HasValue j.head) }
    ensures next { IfOk result (λ j. j.next ≡ operand.next) }
{
    if !are_bools(left, operand.type_) {
        return Err(Refusal::Fault(Broken {
            rule: 18,
            node: NodeId(id),
        }));
    }
    let code = choice(
        alloc,
        Code::Do(Step::Put(CoreValue::Bool(true))),
        operand.code,
    )?;
    Ok(Standing {
        head: Head::Value(CoreType::BoolType),
        code,
        next: operand.next,
    })
}

// The first where a truth value holds, else the second.
fn choice(alloc: Global, a: Code, b: Code) -> Result<Code, NoMemory>
    ensures { IfOk result (λ c. code_of c ≡ If (code_of a) (code_of b)) }
{
    Ok(Code::If(Box::new(alloc, a)?, Box::new(alloc, b)?))
}
