// Fields and methods.
ghost use Rattle.std.specs.Prelude.{◌≡◌, ◌<◌, ◌+◌, ◌^◌, false, [], map, IfOk, OnOk};
ghost use Rattle.vg_syntax.specs.Numbering.{count_nodes};
ghost use Rattle.vg_tree.specs.Held.{text_at, type_at, node_at};
ghost use Rattle.vg_source.specs.Declared.{written_type};
ghost use Rattle.vg_types_interned.specs.Types.{type_view, param_type};
ghost use Rattle.vg_types_members.specs.Members.{IsMaking, IsSignature, home_view, with_field, with_method, with_member, is_member};

use crate::selectors::Selectors;
use std::alloc::Global;
use vg_base::{Name, Names, NoMemory, Row};
use vg_core::{CoreType, Field, Method, Owner};
use vg_tree::{Node, Param, TypeTree};
use vg_types_counts::count_nodes;
use vg_types_interned::{Types, function_number, written, written_params};
use vg_types_tables::MemberNumber;
use vg_types_views::{ByText, text_of};

/// The fields and methods of a program as far as they are made.
#[derive(Drop)]
pub struct Making {
    pub fields: Row<Field>,
    pub methods: Row<Method>,
    pub selectors: Selectors,
}

/// What a class or component declares itself: its members by name, and the numbers of its fields and of its methods.
#[derive(Drop)]
pub struct Own {
    pub members: ByText<MemberNumber>,
    pub fields: Row<u32>,
    pub methods: Row<u16>,
}

/// Who declares members, and the slot of its first field.
#[derive(Clone, Copy, Debug, PartialEq, Eq)]
pub struct Home {
    pub owner: Owner,
    pub slot: u32,
}

/// One member more; what is no field and no method adds nothing.
pub(crate) fn add_member(
    alloc: Global,
    names: &Names,
    types: &Types,
    home: Home,
    member: &Node,
    making: &mut Making,
    own: &mut Own,
) -> Result<(), NoMemory>
    requires room { count_nodes (node_at [] member.now) < 2 ^ 32 }
    requires sound { IsMaking names.now types.now making.old }
    ensures view { OnOk result (home_view names.now types.now making.new own.new
        ≡ with_member home (node_at names.now member.now) (home_view names.now types.now making.old own.old)) }
    ensures sound { OnOk result (IsMaking names.now types.now making.new) }
{
    match member {
        Node::FieldDecl(_, name, type_, _) => add_field(
            names, types, home, *name, type_, making, own,
        ),
        Node::MethodDecl(_, name, params, value, body) => {
            let signature = signature_of(alloc, names, types, params.as_slice(), value)?;
            add_method(
                names,
                types,
                home,
                *name,
                signature,
                count_nodes(body),
                making,
                own,
            )
        }
        _ => passed(member),
    }
}

// Past what is no field and no method.
fn passed(member: &Node) -> Result<(), NoMemory>
    requires { is_member member.now ≡ false }
    ensures { is_member member.now ≡ false }
{
    let _ = member;
    Ok(())
}

// One field more.
fn add_field(
    names: &Names,
    types: &Types,
    home: Home,
    name: Name,
    tree: &TypeTree,
    making: &mut Making,
    own: &mut Own,
) -> Result<(), NoMemory>
    requires sound { IsMaking names.now types.now making.old }
    ensures view { OnOk result (home_view names.now types.now making.new own.new
        ≡ with_field home (text_at names.now name) (written_type (type_at names.now tree.now)) (home_view names.now types.now making.old own.old)) }
    ensures sound { OnOk result (IsMaking names.now types.now making.new) }
{
    let (number, slot) = field_place(home, making.fields.len(), own.fields.len())?;
    let type_ = match written(types, names, tree) {
        Some(type_) => type_,
        // Cannot come: the types that are written in the text were all made before.
        None => return Err(NoMemory),
    };
    making.fields.push(Field {
        name,
        owner: home.owner,
        type_,
        slot,
    })?;
    own.members
        .add(text_of(names, name), MemberNumber::Field(number))?;
    own.fields.push(number)
}

// The number of the next field, and its slot behind those of its home.
fn field_place(home: Home, number: usize, before: usize) -> Result<(u32, u32), NoMemory>
    ensures number { IfOk result (λ p. p.0 ≡ number) }
    ensures slot { IfOk result (λ p. p.1 ≡ home.slot + before) }
{
    // There is no memory for more fields than have a number.
    match (u32::try_from(number), u32::try_from(before)) {
        (Ok(number), Ok(before)) => match home.slot.checked_add(before) {
            Some(slot) => Ok((number, slot)),
            None => Err(NoMemory),
        },
        _ => Err(NoMemory),
    }
}

// The types of a method.
#[derive(Drop)]
struct Signature {
    params: Row<CoreType>,
    value: CoreType,
    /// The number of the function type.
    function: u32,
}

// The types of a method of these parameters and this result.
fn signature_of(
    alloc: Global,
    names: &Names,
    types: &Types,
    params: &[Param],
    value: &TypeTree,
) -> Result<Signature, NoMemory>
    ensures params { IfOk result (λ s. map (type_view types.now.classes types.now.numbers.keys) s.params ≡ map (param_type names.now) params.now) }
    ensures value { IfOk result (λ s. type_view types.now.classes types.now.numbers.keys s.value ≡ written_type (type_at names.now value.now)) }
    ensures sound { IfOk result (IsSignature types.now) }
{
    let params = written_params(alloc, types, names, params)?;
    // Cannot come: the types that are written in the text were all made before.
    let value = match written(types, names, value) {
        Some(value) => value,
        None => return Err(NoMemory),
    };
    match function_number(types, params.as_slice(), value) {
        Some(function) => Ok(Signature {
            params,
            value,
            function,
        }),
        None => Err(NoMemory),
    }
}

// One method more, with so many nodes in its body.
fn add_method(
    names: &Names,
    types: &Types,
    home: Home,
    name: Name,
    signature: Signature,
    nodes: u32,
    making: &mut Making,
    own: &mut Own,
) -> Result<(), NoMemory>
    requires types { IsSignature types.now signature }
    requires sound { IsMaking names.now types.now making.old }
    ensures view { OnOk result (home_view names.now types.now making.new own.new
        ≡ with_method home (text_at names.now name) (map (type_view types.now.classes types.now.numbers.keys) signature.params)
        (type_view types.now.classes types.now.numbers.keys signature.value) nodes (home_view names.now types.now making.old own.old)) }
    ensures sound { OnOk result (IsMaking names.now types.now making.new) }
{
    // Cannot come: there are no more methods than were counted.
    let number = match u16::try_from(making.methods.len()) {
        Ok(number) => number,
        Err(_) => return Err(NoMemory),
    };
    let text = text_of(names, name);
    let selector = making.selectors.number(text)?;
    making.methods.push(Method {
        name,
        owner: home.owner,
        selector,
        function: signature.function,
        params: signature.params,
        result: signature.value,
        nodes,
    })?;
    own.members.add(text, MemberNumber::Method(number))?;
    own.methods.push(number)
}
