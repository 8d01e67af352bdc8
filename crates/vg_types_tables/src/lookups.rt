// Look-ups by name, and in the tables.
ghost use Rattle.std.specs.Prelude.{◌≡◌, ◌<◌, Some, is_some, length, slice_get, IfSome};
ghost use Rattle.vg_source.specs.Nodes.{literal_nodes, place_in};
ghost use Rattle.vg_core.specs.Tables.{is_below, is_in};
ghost use Rattle.vg_core.specs.declared.program.Class.{Class};
ghost use Rattle.vg_types_views.specs.ByText.{found};
ghost use Rattle.vg_types_tables.specs.Views.{declarations_at};
ghost use Rattle.vg_types_tables.specs.Declares.{Declares, found_in, member_of, register_at};

use crate::declared::{Declared, MemberNumber};
use vg_base::Names;
use vg_core::{CoreType, Tables};
use vg_tree::Node;
use vg_types_views::ByText;

/// The class of this name.
pub fn class_of(declared: &Declared, text: &str) -> Option<u16>
    ensures { result ≡ found text.now declared.now.classes }
{
    declared.classes.get(text).copied()
}

/// The component of this name.
pub fn component_of(declared: &Declared, text: &str) -> Option<u16>
    ensures { result ≡ found text.now declared.now.components }
{
    declared.components.get(text).copied()
}

/// Whether a device has this name.
pub fn is_device(declared: &Declared, text: &str) -> bool
    ensures { result ≡ is_some (found text.now declared.now.devices) }
{
    declared.devices.get(text).copied().is_some()
}

/// The member of this name that objects of a class have.
pub fn class_member(declared: &Declared, class: u16, text: &str) -> Option<MemberNumber>
    ensures { (k : Class) → slice_get declared.now.tables.classes class ≡ Some k → result ≡ member_of declared.now k.above text.now }
{
    match declared.tables.classes.as_slice().get(usize::from(class)) {
        Some(found) => first_member(declared, found.above.as_slice(), text),
        None => None,
    }
}

// The first member of this name that one of these classes declares itself.
fn first_member(declared: &Declared, chain: &[u16], text: &str) -> Option<MemberNumber>
    ensures { result ≡ member_of declared.now chain.now text.now }
{
    for class in chain {
        let found = own_member(declared.class_members.as_slice(), usize::from(*class), text);
        if found.is_some() {
            return found;
        }
    }
    None
}

// What a text is mapped to by one of these maps, where there is this map.
fn own_member(maps: &[ByText<MemberNumber>], number: usize, text: &str) -> Option<MemberNumber>
    ensures { result ≡ found_in text.now (slice_get maps.now number) }
{
    match maps.get(number) {
        Some(map) => map.get(text).copied(),
        None => None,
    }
}

/// The member of this name of a component.
pub fn component_member(declared: &Declared, component: u16, text: &str) -> Option<MemberNumber>
    ensures { result ≡ found_in text.now (slice_get declared.now.component_members component) }
{
    own_member(
        declared.component_members.as_slice(),
        usize::from(component),
        text,
    )
}

/// The address of a register of a device.
pub fn register_of(declared: &Declared, device: &str, register: &str) -> Option<u8>
    ensures { result ≡ register_at declared.now (found device.now declared.now.devices) register.now }
{
    match declared.devices.get(device) {
        Some(number) => match declared.registers.as_slice().get(*number as usize) {
            Some(registers) => registers.get(register).copied(),
            None => None,
        },
        None => None,
    }
}

/// Whether a class is the other or below it.
pub fn is_below(tables: &Tables, class: u16, other: u16) -> bool
    ensures { result ≡ is_below tables.now class other }
{
    match tables.classes.as_slice().get(usize::from(class)) {
        Some(found) => is_among(found.above.as_slice(), other),
        None => false,
    }
}

// Whether a class is one of these.
fn is_among(classes: &[u16], other: u16) -> bool
    ensures { result ≡ is_in classes.now other }
{
    for class in classes {
        if *class == other {
            return true;
        }
    }
    false
}

/// The type of this number.
pub fn type_of_number(declared: &Declared, number: u32) -> Option<CoreType>
    ensures { result ≡ slice_get declared.now.tables.types number }
{
    declared
        .tables
        .types
        .as_slice()
        .get(number as usize)
        .copied()
}

/// The number of a type. None where the tables have none.
pub fn number_of(declared: &Declared, type_: CoreType) -> Option<u32>
    requires numbers { declared.now.type_numbers.keys ≡ declared.now.tables.types }
    ensures { IfSome result (λ n. slice_get declared.now.tables.types n ≡ Some type_) }
{
    match declared.type_numbers.get_index_of(&type_) {
        Some(index) => in_range(index),
        None => None,
    }
}

// An index as a number, where it is in its range.
fn in_range(index: usize) -> Option<u32>
    ensures { IfSome result (λ number. number ≡ index) }
{
    if index <= u32::MAX as usize {
        Some(index as u32)
    } else {
        None
    }
}

/// The number of the string literal that stands at this node. None where the text has none there.
pub fn literal_of(names: &Names, root: &Node, declared: &Declared, id: u32) -> Option<u32>
    requires declares { Declares names.now root.now declared.now }
    ensures { IfSome result (λ k.
        (k ≡ place_in (literal_nodes (declarations_at names.now root.now)) id) × (k < length declared.now.tables.literals)) }
{
    match declared.literal_nodes.get_index_of(&id) {
        Some(index) => in_range(index),
        None => None,
    }
}
