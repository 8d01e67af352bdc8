// The initialisers of fields.
ghost use Rattle.std.specs.Prelude.{◌≡◌, ◌<◌, ◌+◌, ◌^◌, Some, slice_get, IfSome, IsTrue};
ghost use Rattle.vg_syntax.specs.Numbering.{count_nodes, numbered};
ghost use Rattle.vg_syntax.specs.Reads.{spot};
ghost use Rattle.vg_tree.specs.Held.{text_at, type_at, node_at};
ghost use Rattle.vg_source.specs.Declared.{written_type};
ghost use Rattle.vg_core.specs.declared.program.Field.{Field};
ghost use Rattle.vg_core.specs.declared.program.Owner.TheVariants.{InClass, InComponent};
ghost use Rattle.vg_types_views.specs.Judges.{Judges};
ghost use Rattle.vg_types_tables.specs.Views.{declarations_at, naming};
ghost use Rattle.vg_types_tables.specs.Declares.{Declares, IsClass, IsComponent};
ghost use Rattle.vg_types_tables.specs.Promises.{IsOwner};
ghost use Rattle.vg_types_bodies.specs.Initial.{initial_breach};
ghost use Rattle.vg_types_bodies.specs.Fields.{Has};
ghost use Rattle.vg_types_routines.specs.Walked.{IsInitialiser};
ghost use Rattle.vg_types_routines.specs.Fields.{field_node, key_of, IsOwn};

use std::alloc::Global;
use vg_base::{Name, Names, Place, Refusal};
use vg_core::{Code, CoreType, Owner};
use vg_tree::{Node, TypeTree};
use vg_types_bodies::field_initialiser;
use vg_types_tables::{Declared, MemberNumber, class_member, component_member, written};
use vg_types_views::{Broken, text_of};

/// The code of the initialiser of a field of this number, or the first breach in it.
pub(crate) fn initialiser(
    alloc: Global,
    names: &Names,
    root: &Node,
    declared: &Declared,
    owner: Owner,
    place: Place,
    name: Name,
    type_: &TypeTree,
    value: &Node,
    id: u32,
) -> Result<Code, Refusal<Broken>>
    requires declares { Declares names.now root.now declared.now }
    requires owner { IsOwner declared.now.tables (Some owner) }
    requires room { id + 1 + count_nodes (node_at names.now value.now) < 2 ^ 32 }
    ensures { Judges (IsInitialiser names.now root.now declared.now owner
        (field_node id (spot place) (text_at names.now name) (type_at names.now type_.now) (numbered (id + 1) (node_at names.now value.now)))) result
        (initial_breach (declarations_at names.now root.now) (written_type (type_at names.now type_.now))
        (numbered (id + 1) (node_at names.now value.now)) id) }
{
    let wanted = match written(names, root, declared, type_) {
        Some(wanted) => wanted,
        // All types of the text are in the tables.
        None => return Err(Refusal::NoMemory),
    };
    match field_of(names, root, declared, owner, text_of(names, name), wanted) {
        Some(field) => field_initialiser(
            alloc, names, root, declared, owner, field, wanted, value, id,
        ),
        // No two members of one owner have one name, so what is found is this field.
        None => Err(Refusal::NoMemory),
    }
}

// The field of this name and type that this owner declares itself.
fn field_of(
    names: &Names,
    root: &Node,
    declared: &Declared,
    owner: Owner,
    text: &str,
    wanted: CoreType,
) -> Option<u32>
    requires declares { Declares names.now root.now declared.now }
    requires owner { IsOwner declared.now.tables (Some owner) }
    ensures field { IfSome result (λ f.
        (y : Field) × (slice_get declared.now.tables.fields f ≡ Some y) × (y.type_ ≡ wanted) × Has declared.now.tables owner y) }
    ensures key { IfSome result (λ f. (naming names.now declared.now).field f ≡ key_of names.now declared.now owner text.now) }
{
    match owner {
        Owner::InClass(class) => class_field(names, root, declared, class, text, wanted),
        Owner::InComponent(component) => {
            component_field(names, root, declared, component, text, wanted)
        }
    }
}

// The field of this name and type that a class declares itself.
fn class_field(
    names: &Names,
    root: &Node,
    declared: &Declared,
    class: u16,
    text: &str,
    wanted: CoreType,
) -> Option<u32>
    requires declares { Declares names.now root.now declared.now }
    requires there { IsClass declared.now.tables class }
    ensures field { IfSome result (λ f.
        (y : Field) × (slice_get declared.now.tables.fields f ≡ Some y) × (y.type_ ≡ wanted) × Has declared.now.tables (InClass class) y) }
    ensures key { IfSome result (λ f. (naming names.now declared.now).field f ≡ key_of names.now declared.now (InClass class) text.now) }
{
    match class_member(declared, class, text) {
        Some(MemberNumber::Field(number)) => {
            if is_own(declared, Owner::InClass(class), number, wanted) {
                Some(number)
            } else {
                None
            }
        }
        Some(MemberNumber::Method(_)) => None,
        None => None,
    }
}

// The field of this name and type of a component.
fn component_field(
    names: &Names,
    root: &Node,
    declared: &Declared,
    component: u16,
    text: &str,
    wanted: CoreType,
) -> Option<u32>
    requires declares { Declares names.now root.now declared.now }
    requires there { IsComponent declared.now.tables component }
    ensures field { IfSome result (λ f.
        (y : Field) × (slice_get declared.now.tables.fields f ≡ Some y) × (y.type_ ≡ wanted) × Has declared.now.tables (InComponent component) y) }
    ensures key { IfSome result (λ f. (naming names.now declared.now).field f ≡ key_of names.now declared.now (InComponent component) text.now) }
{
    match component_member(declared, component, text) {
        Some(MemberNumber::Field(number)) => {
            if is_own(declared, Owner::InComponent(component), number, wanted) {
                Some(number)
            } else {
                None
            }
        }
        Some(MemberNumber::Method(_)) => None,
        None => None,
    }
}

// Whether a field is declared by this owner and has this type.
fn is_own(declared: &Declared, owner: Owner, number: u32, wanted: CoreType) -> bool
    ensures { IsTrue result → IsOwn declared.now.tables owner wanted number }
{
    match declared.tables.fields.as_slice().get(number as usize) {
        Some(field) => field.owner == owner && field.type_ == wanted,
        None => false,
    }
}
