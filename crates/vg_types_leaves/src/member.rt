// What a Member suffix reaches.
ghost use Rattle.std.specs.Prelude.{◌≡◌, ◌+◌, ◌<◌, ◌^◌, slice_get, IfOk, IfSome, List};
ghost use Rattle.vg_source.specs.Resolved.{object_member, its_member, its_register, register_of, member_suffix, Onto};
ghost use Rattle.vg_syntax.specs.Reads.{spot};
ghost use Rattle.vg_tree.specs.Held.{text_at};
ghost use Rattle.vg_core.specs.HeldProgram.{code_of};
ghost use Rattle.vg_core.specs.declared.types.CoreType.{CoreType as SpecType};
ghost use Rattle.vg_core.specs.declared.types.CoreType.TheVariants.{ClassType};
ghost use Rattle.vg_types_tables.specs.declared.judged.Head.TheVariants.{Nothing, Value};
ghost use Rattle.vg_source.specs.Declared.{class_member, component_member, device_named};
ghost use Rattle.vg_types_tables.specs.Views.{declarations_at, naming, body_view, scope_view, head_view};
ghost use Rattle.vg_rules.specs.Bodies.{breach};
ghost use Rattle.vg_types_views.specs.Judges.{Judges};
ghost use Rattle.vg_types_tables.specs.Declares.{Declares, IsClass, IsComponent, IsKnown};
ghost use Rattle.vg_types_tables.specs.Promises.{IsHead, waiting, Leads, Aims, Stores};
ghost use Rattle.vg_types_leaves.specs.Nodes.{member_node};
ghost use Rattle.vg_types_leaves.specs.Judgements.{Behind, HasValue};
ghost use Rattle.vg_types_leaves.specs.Reached.{Reaches, front};

use crate::reached::Reached;
use std::alloc::Global;
use vg_base::{Name, Names, NodeId, Place, Refusal};
use vg_core::{CoreType, Field};
use vg_tree::Node;
use vg_types_tables::{
    Aimed, BodyKind, Declared, Head, Locals, MemberNumber, Standing, class_member,
    component_member, register_of,
};
use vg_types_views::{Broken, text_of};

/// What a Member suffix reaches from what is in front of it: rule 16.
pub fn reach_member(
    names: &Names,
    root: &Node,
    declared: &Declared,
    locals: &Locals,
    head: Head,
    text: &str,
    id: u32,
) -> Option<Reached>
    requires declares { Declares names.now root.now declared.now }
    requires head { IsHead names.now declared.now head }
    ensures reached { Reaches names.now declared.now id locals.now (member_suffix (declarations_at names.now root.now) id text.now
        (scope_view names.now declared.now locals.now) (head_view names.now declared.now head)) result }
    ensures front { IfSome result (λ r. (x : List SpecType) → waiting head x ≡ waiting (front r) x) }
{
    match head {
        Head::Value(type_) => value_member(names, root, declared, locals, type_, text, id),
        Head::Component(component) => its_member(
            names, root, declared, locals, component, text, id,
        ),
        Head::Device(device) => its_register(
            names,
            root,
            declared,
            locals,
            text_of(names, device),
            text,
            id,
        ),
        Head::Nothing | Head::OwnMethod(_, _, _) | Head::ItsMethod(_) => None,
    }
}

// What it reaches from a value.
fn value_member(
    names: &Names,
    root: &Node,
    declared: &Declared,
    locals: &Locals,
    type_: CoreType,
    text: &str,
    id: u32,
) -> Option<Reached>
    requires declares { Declares names.now root.now declared.now }
    requires known { IsKnown declared.now.tables type_ }
    ensures reached { Reaches names.now declared.now id locals.now (member_suffix (declarations_at names.now root.now) id text.now
        (scope_view names.now declared.now locals.now) (head_view names.now declared.now (Value type_))) result }
    ensures front { IfSome result (λ r. front r ≡ Value type_) }
{
    match type_ {
        CoreType::ClassType(class) => object_member(names, root, declared, locals, class, text, id),
        CoreType::ArrayType(element) => {
            if text == "length" {
                Some(Reached::Length(element))
            } else {
                None
            }
        }
        CoreType::IntType
        | CoreType::BoolType
        | CoreType::CharType
        | CoreType::RawType(_)
        | CoreType::NullType
        | CoreType::FunctionType(_, _)
        | CoreType::NoType
        | CoreType::MoreTypes(_, _) => None,
    }
}

/// A member of the object that waits, whose static class is this one.
pub(crate) fn object_member(
    names: &Names,
    root: &Node,
    declared: &Declared,
    locals: &Locals,
    class: u16,
    text: &str,
    id: u32,
) -> Option<Reached>
    requires declares { Declares names.now root.now declared.now }
    requires class { IsClass declared.now.tables class }
    ensures reached { Reaches names.now declared.now id locals.now (object_member id ((naming names.now declared.now).class class) text.now
        (class_member (declarations_at names.now root.now) ((naming names.now declared.now).class class) text.now)
        (scope_view names.now declared.now locals.now)) result }
    ensures front { IfSome result (λ r. front r ≡ Value (ClassType class)) }
{
    match class_member(declared, class, text) {
        Some(MemberNumber::Field(number)) => match field_at(declared, number) {
            Some(field) => Some(Reached::Field(class, number, field.type_)),
            None => None,
        },
        Some(MemberNumber::Method(number)) => Some(Reached::OwnMethod(class, number)),
        None => None,
    }
}

/// A member of a component.
pub(crate) fn its_member(
    names: &Names,
    root: &Node,
    declared: &Declared,
    locals: &Locals,
    component: u16,
    text: &str,
    id: u32,
) -> Option<Reached>
    requires declares { Declares names.now root.now declared.now }
    requires component { IsComponent declared.now.tables component }
    ensures reached { Reaches names.now declared.now id locals.now (its_member ((naming names.now declared.now).component component) text.now
        (component_member (declarations_at names.now root.now) ((naming names.now declared.now).component component) text.now)
        (scope_view names.now declared.now locals.now)) result }
    ensures front { IfSome result (λ r. front r ≡ Nothing) }
{
    match component_member(declared, component, text) {
        Some(MemberNumber::Field(number)) => match field_at(declared, number) {
            Some(field) => Some(Reached::Global(number, field.type_)),
            None => None,
        },
        Some(MemberNumber::Method(number)) => Some(Reached::ItsMethod(number)),
        None => None,
    }
}

/// A register of a device.
pub(crate) fn its_register(
    names: &Names,
    root: &Node,
    declared: &Declared,
    locals: &Locals,
    device: &str,
    text: &str,
    id: u32,
) -> Option<Reached>
    requires declares { Declares names.now root.now declared.now }
    ensures reached { Reaches names.now declared.now id locals.now (its_register
        (register_of (device_named (declarations_at names.now root.now) device.now) text.now)
        (scope_view names.now declared.now locals.now)) result }
    ensures front { IfSome result (λ r. front r ≡ Nothing) }
{
    match register_of(declared, device, text) {
        Some(address) => Some(Reached::Register(address)),
        None => None,
    }
}

// The field of this number.
fn field_at(declared: &Declared, number: u32) -> Option<Field>
    ensures { result ≡ slice_get declared.now.tables.fields number }
{
    declared
        .tables
        .fields
        .as_slice()
        .get(number as usize)
        .copied()
}

/// A Member suffix behind what is in front of it: rule 16.
pub fn member_behind(
    alloc: Global,
    names: &Names,
    root: &Node,
    declared: &Declared,
    body: BodyKind,
    locals: &Locals,
    head: Head,
    place: Place,
    name: Name,
    id: u32,
) -> Result<Standing, Refusal<Broken>>
    requires declares { Declares names.now root.now declared.now }
    requires head { IsHead names.now declared.now head }
    requires room { id + 1 < 2 ^ 32 }
    ensures judged { Behind names.now root.now declared.now body locals.now (member_node id (spot place) (text_at names.now name))
        (Onto (head_view names.now declared.now head)) result }
    ensures typed { IfOk result (λ j. Leads declared.now.tables body locals.now head (code_of j.code) j.head) }
    ensures value { IfOk result (λ j. HasValue j.head) }
    ensures next { IfOk result (λ j. j.next ≡ id + 1) }
{
    match reach_member(
        names,
        root,
        declared,
        locals,
        head,
        text_of(names, name),
        id,
    ) {
        Some(reached) => Ok(Standing {
            head: reached.head(id),
            code: reached.code(alloc, id),
            next: id + 1,
        }),
        None => Err(Refusal::Fault(Broken {
            rule: 16,
            node: NodeId(id),
        })),
    }
}

/// A Member suffix as the target of an assignment, behind what is in front of it: rule 16.
pub fn member_target(
    alloc: Global,
    names: &Names,
    root: &Node,
    declared: &Declared,
    body: BodyKind,
    locals: &Locals,
    head: Head,
    place: Place,
    name: Name,
    id: u32,
) -> Result<Aimed, Refusal<Broken>>
    requires declares { Declares names.now root.now declared.now }
    requires head { IsHead names.now declared.now head }
    requires room { id + 1 < 2 ^ 32 }
    ensures judged { Judges (Aims names.now root.now declared.now body locals.now (member_node id (spot place) (text_at names.now name))
        (Onto (head_view names.now declared.now head))) result
        (breach (declarations_at names.now root.now) (body_view names.now declared.now body) (member_node id (spot place) (text_at names.now name))
        (Onto (head_view names.now declared.now head)) (scope_view names.now declared.now locals.now)) }
    ensures typed { IfOk result (λ j. IfSome j.place (Stores declared.now.tables body locals.now head)) }
    ensures next { IfOk result (λ j. j.next ≡ id + 1) }
{
    match reach_member(
        names,
        root,
        declared,
        locals,
        head,
        text_of(names, name),
        id,
    ) {
        Some(reached) => Ok(Aimed {
            place: reached.place(alloc, id),
            next: id + 1,
        }),
        None => Err(Refusal::Fault(Broken {
            rule: 16,
            node: NodeId(id),
        })),
    }
}
