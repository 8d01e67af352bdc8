// Casts and class tests.
ghost use Rattle.std.specs.Prelude.{◌≡◌, ◌+◌, ◌<◌, ◌^◌, ◌||◌, IfOk, IsTrue};
ghost use Rattle.vg_syntax.specs.declared.kind.Kind.TheVariants.{Below, Cast};
ghost use Rattle.vg_syntax.specs.Reads.{spot};
ghost use Rattle.vg_syntax.specs.Numbering.{with_id};
ghost use Rattle.vg_tree.specs.Held.{type_at};
ghost use Rattle.vg_source.specs.Declared.{written_type};
ghost use Rattle.vg_source.specs.Resolved.{type_part};
ghost use Rattle.vg_rules.specs.Breach.{asks, ◌or◌};
ghost use Rattle.vg_rules.specs.Written.{type_keeps};
ghost use Rattle.vg_rules.specs.Operands.{type_part_keeps, can_cast};
ghost use Rattle.vg_core.specs.HeldProgram.{code_of};
ghost use Rattle.vg_core.specs.Tables.{is_below};
ghost use Rattle.vg_core.specs.Typing.{Casts};
ghost use Rattle.vg_types_tables.specs.declared.judged.Head.TheVariants.{Value};
ghost use Rattle.vg_types_views.specs.Judges.{Judges};
ghost use Rattle.vg_types_tables.specs.Views.{declarations_at, type_view, head_view, scope_view};
ghost use Rattle.vg_types_tables.specs.Declares.{Declares, IsKnown};
ghost use Rattle.vg_types_tables.specs.Promises.{IsHead, Leads};
ghost use Rattle.vg_types_leaves.specs.Judgements.{HasValue, Shows};
ghost use Rattle.vg_types_operators.specs.Casts.{IsTarget};
ghost use Rattle.vg_types_operators.specs.Operands.{casts_where, has_bits, tested};

use vg_base::{Names, NodeId, Place, Refusal};
use vg_core::{Code, CoreType, Step, Tables};
use vg_syntax::Kind;
use vg_tree::{Node, TypeTree};
use vg_types_tables::{BodyKind, Declared, Head, Locals, Standing, is_below, type_keeps, written};
use vg_types_views::Broken;

/// A part with a type, behind what waits: a class test or a cast. Rules 8 and 19.
pub fn type_part(
    names: &Names,
    root: &Node,
    declared: &Declared,
    body: BodyKind,
    locals: &Locals,
    head: Head,
    place: Place,
    op: Kind,
    type_: &TypeTree,
    id: u32,
) -> Result<Standing, Refusal<Broken>>
    requires declares { Declares names.now root.now declared.now }
    requires head { IsHead names.now declared.now head }
    requires room { id + 1 < 2 ^ 32 }
    ensures judged { Judges (Shows names.now declared.now locals.now
        (type_part id op (written_type (type_at names.now type_.now)) (scope_view names.now declared.now locals.now))) result
        (asks (type_keeps (declarations_at names.now root.now) (type_at names.now type_.now)) 8 (with_id id (spot place))
        or asks (type_part_keeps (declarations_at names.now root.now) op (head_view names.now declared.now head) (written_type (type_at names.now type_.now)))
        19 (with_id id (spot place))) }
    ensures typed { IfOk result (λ j. Leads declared.now.tables body locals.now head (code_of j.code) j.head) }
    ensures value { IfOk result (λ j. HasValue j.head) }
    ensures next { IfOk result (λ j. j.next ≡ id + 1) }
{
    if !type_keeps(names, root, declared, type_) {
        return Err(Refusal::Fault(Broken {
            rule: 8,
            node: NodeId(id),
        }));
    }
    match written(names, root, declared, type_) {
        Some(wanted) => to_type(
            names, root, declared, body, locals, head, place, op, wanted, id,
        ),
        // The tables have all types that the text writes.
        None => Err(Refusal::NoMemory),
    }
}

// A class test or a cast, by the type that is written.
fn to_type(
    names: &Names,
    root: &Node,
    declared: &Declared,
    body: BodyKind,
    locals: &Locals,
    head: Head,
    place: Place,
    op: Kind,
    wanted: CoreType,
    id: u32,
) -> Result<Standing, Refusal<Broken>>
    requires declares { Declares names.now root.now declared.now }
    requires head { IsHead names.now declared.now head }
    requires wanted { IsKnown declared.now.tables wanted }
    requires room { id + 1 < 2 ^ 32 }
    ensures judged { Judges (Shows names.now declared.now locals.now
        (type_part id op (type_view names.now declared.now wanted) (scope_view names.now declared.now locals.now))) result
        (asks (type_part_keeps (declarations_at names.now root.now) op (head_view names.now declared.now head) (type_view names.now declared.now wanted))
        19 (with_id id (spot place))) }
    ensures typed { IfOk result (λ j. Leads declared.now.tables body locals.now head (code_of j.code) j.head) }
    ensures value { IfOk result (λ j. HasValue j.head) }
    ensures next { IfOk result (λ j. j.next ≡ id + 1) }
{
    match op {
        Kind::Below => class_test(names, root, declared, body, locals, head, place, wanted, id),
        Kind::Cast => cast(names, root, declared, body, locals, head, place, wanted, id),
        // No tree of a text has another sign before a type.
        _ => Err(Refusal::NoMemory),
    }
}

// Whether the object that waits is of a class or below it.
fn class_test(
    names: &Names,
    root: &Node,
    declared: &Declared,
    body: BodyKind,
    locals: &Locals,
    head: Head,
    place: Place,
    wanted: CoreType,
    id: u32,
) -> Result<Standing, Refusal<Broken>>
    requires declares { Declares names.now root.now declared.now }
    requires head { IsHead names.now declared.now head }
    requires wanted { IsKnown declared.now.tables wanted }
    requires room { id + 1 < 2 ^ 32 }
    ensures judged { Judges (Shows names.now declared.now locals.now
        (type_part id Below (type_view names.now declared.now wanted) (scope_view names.now declared.now locals.now))) result
        (asks (type_part_keeps (declarations_at names.now root.now) Below (head_view names.now declared.now head) (type_view names.now declared.now wanted))
        19 (with_id id (spot place))) }
    ensures typed { IfOk result (λ j. Leads declared.now.tables body locals.now head (code_of j.code) j.head) }
    ensures value { IfOk result (λ j. HasValue j.head) }
    ensures next { IfOk result (λ j. j.next ≡ id + 1) }
{
    match tested(&declared.tables, head, wanted) {
        Some(class) => Ok(Standing {
            head: Head::Value(CoreType::BoolType),
            code: Code::Do(Step::IsBelow(class)),
            next: id + 1,
        }),
        None => Err(Refusal::Fault(Broken {
            rule: 19,
            node: NodeId(id),
        })),
    }
}

// The class that is tested for, where an object waits whose class is this one, or above or below it.
fn tested(tables: &Tables, head: Head, wanted: CoreType) -> Option<u16>
    ensures { result ≡ tested tables.now head wanted }
{
    match head {
        Head::Value(type_) => match type_ {
            CoreType::ClassType(class) => match wanted {
                CoreType::ClassType(other) => {
                    if are_related(tables, class, other) {
                        Some(other)
                    } else {
                        None
                    }
                }
                _ => None,
            },
            _ => None,
        },
        _ => None,
    }
}

// Whether one class is the other, or above or below it.
fn are_related(tables: &Tables, class: u16, other: u16) -> bool
    ensures { result ≡ (is_below tables.now class other || is_below tables.now other class) }
{
    is_below(tables, class, other) || is_below(tables, other, class)
}

// What waits as a value of the type that is written.
fn cast(
    names: &Names,
    root: &Node,
    declared: &Declared,
    body: BodyKind,
    locals: &Locals,
    head: Head,
    place: Place,
    wanted: CoreType,
    id: u32,
) -> Result<Standing, Refusal<Broken>>
    requires declares { Declares names.now root.now declared.now }
    requires head { IsHead names.now declared.now head }
    requires wanted { IsKnown declared.now.tables wanted }
    requires room { id + 1 < 2 ^ 32 }
    ensures judged { Judges (Shows names.now declared.now locals.now
        (type_part id Cast (type_view names.now declared.now wanted) (scope_view names.now declared.now locals.now))) result
        (asks (type_part_keeps (declarations_at names.now root.now) Cast (head_view names.now declared.now head) (type_view names.now declared.now wanted))
        19 (with_id id (spot place))) }
    ensures typed { IfOk result (λ j. Leads declared.now.tables body locals.now head (code_of j.code) j.head) }
    ensures value { IfOk result (λ j. HasValue j.head) }
    ensures next { IfOk result (λ j. j.next ≡ id + 1) }
{
    match head {
        Head::Value(type_) => cast_value(
            names, root, declared, body, locals, type_, place, wanted, id,
        ),
        Head::Nothing
        | Head::Component(_)
        | Head::Device(_)
        | Head::OwnMethod(_, _, _)
        | Head::ItsMethod(_) => Err(Refusal::Fault(Broken {
            rule: 19,
            node: NodeId(id),
        })),
    }
}

// A value of the first type as one of the second.
fn cast_value(
    names: &Names,
    root: &Node,
    declared: &Declared,
    body: BodyKind,
    locals: &Locals,
    type_: CoreType,
    place: Place,
    wanted: CoreType,
    id: u32,
) -> Result<Standing, Refusal<Broken>>
    requires declares { Declares names.now root.now declared.now }
    requires known { IsKnown declared.now.tables type_ }
    requires wanted { IsKnown declared.now.tables wanted }
    requires room { id + 1 < 2 ^ 32 }
    ensures judged { Judges (Shows names.now declared.now locals.now
        (type_part id Cast (type_view names.now declared.now wanted) (scope_view names.now declared.now locals.now))) result
        (asks (can_cast (declarations_at names.now root.now) (type_view names.now declared.now type_) (type_view names.now declared.now wanted))
        19 (with_id id (spot place))) }
    ensures typed { IfOk result (λ j. Leads declared.now.tables body locals.now (Value type_) (code_of j.code) j.head) }
    ensures value { IfOk result (λ j. HasValue j.head) }
    ensures next { IfOk result (λ j. j.next ≡ id + 1) }
{
    if !can_cast(names, root, declared, type_, wanted) {
        return Err(Refusal::Fault(Broken {
            rule: 19,
            node: NodeId(id),
        }));
    }
    if !is_target(wanted) {
        // Neither the type of `null` nor a row of types is written as that of a value.
        return Err(Refusal::NoMemory);
    }
    Ok(Standing {
        head: Head::Value(wanted),
        code: Code::Do(Step::CastTo(id, type_, wanted)),
        next: id + 1,
    })
}

// Whether a type can be written as that of a value.
fn is_target(type_: CoreType) -> bool
    ensures { IsTrue result → IsTarget type_ }
{
    match type_ {
        CoreType::NullType => false,
        CoreType::MoreTypes(_, _) => false,
        CoreType::IntType => true,
        CoreType::BoolType => true,
        CoreType::CharType => true,
        CoreType::RawType(_) => true,
        CoreType::ClassType(_) => true,
        CoreType::ArrayType(_) => true,
        CoreType::FunctionType(_, _) => true,
        CoreType::NoType => true,
    }
}

// Whether a value of the first type may be cast to the second.
fn can_cast(
    names: &Names,
    root: &Node,
    declared: &Declared,
    type_: CoreType,
    wanted: CoreType,
) -> bool
    requires declares { Declares names.now root.now declared.now }
    requires known { IsKnown declared.now.tables type_ }
    requires wanted { IsKnown declared.now.tables wanted }
    ensures exact { result
        ≡ can_cast (declarations_at names.now root.now) (type_view names.now declared.now type_) (type_view names.now declared.now wanted) }
    ensures typed { IsTrue result → IsTarget wanted → Casts declared.now.tables type_ wanted }
{
    casts_where(&declared.tables, type_, wanted, type_ == wanted)
}

// Whether it may, where it is told whether the types are equal.
fn casts_where(tables: &Tables, type_: CoreType, wanted: CoreType, equal: bool) -> bool
    ensures { result ≡ casts_where tables.now type_ wanted equal }
{
    match type_ {
        CoreType::NoType => false,
        CoreType::IntType => equal || has_bits(wanted),
        CoreType::CharType => equal || has_bits(wanted),
        CoreType::RawType(_) => equal || has_bits(wanted),
        CoreType::ClassType(class) => match wanted {
            CoreType::ClassType(other) => equal || are_related(tables, class, other),
            _ => equal,
        },
        CoreType::NullType => match wanted {
            CoreType::ClassType(_) => true,
            _ => equal,
        },
        _ => equal,
    }
}

// Whether values of a type are ints, chars or bit strings.
fn has_bits(type_: CoreType) -> bool
    ensures { result ≡ has_bits type_ }
{
    match type_ {
        CoreType::IntType => true,
        CoreType::CharType => true,
        CoreType::RawType(_) => true,
        _ => false,
    }
}
