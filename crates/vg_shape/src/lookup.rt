// Look-ups in the tables of a program.
ghost use Rattle.std.specs.Prelude.{◌≡◌, Some, slice_get};
ghost use Rattle.vg_core.specs.Tables as tables_of;
ghost use Rattle.vg_core.specs.Tables.{is_in, find_selector, has_selector, slot_in};

use vg_core::{CoreType, Field, Owner, Tables};

/// Whether class c is d or below it.
pub fn is_below(tables: &Tables, c: u16, d: u16) -> bool
    ensures { result ≡ tables_of.is_below tables.now c d }
{
    match tables.classes.as_slice().get(usize::from(c)) {
        Some(class) => contains(class.above.as_slice(), d),
        None => false,
    }
}

// Whether a number is one of these.
fn contains(numbers: &[u16], wanted: u16) -> bool
    ensures { result ≡ is_in numbers.now wanted }
{
    for number in numbers {
        if *number == wanted {
            return true;
        }
    }
    false
}

/// Whether two classes are of one hierarchy.
pub fn one_hierarchy(tables: &Tables, c: u16, d: u16) -> bool
    ensures { result ≡ tables_of.one_hierarchy tables.now c d }
{
    match top(tables, c) {
        Some(highest) => match top(tables, d) {
            Some(other) => highest == other,
            None => false,
        },
        None => false,
    }
}

// The highest class above a class, or that class itself.
fn top(tables: &Tables, c: u16) -> Option<u16>
    ensures { result ≡ tables_of.top tables.now c }
{
    match tables.classes.as_slice().get(usize::from(c)) {
        Some(class) => last_of(class.above.as_slice()),
        None => None,
    }
}

// The last of these numbers.
fn last_of(numbers: &[u16]) -> Option<u16>
    ensures { result ≡ tables_of.last_of numbers.now }
{
    numbers.last().copied()
}

/// The method that an object of class c has for a selector.
pub fn dispatch(tables: &Tables, c: u16, selector: u16) -> Option<u16>
    ensures { result ≡ tables_of.dispatch tables.now c selector }
{
    match tables.classes.as_slice().get(usize::from(c)) {
        Some(class) => find(tables, class.methods.as_slice(), selector),
        None => None,
    }
}

// The first of these methods that has the selector.
fn find(tables: &Tables, methods: &[u16], selector: u16) -> Option<u16>
    ensures { result ≡ find_selector tables.now methods.now selector }
{
    for method in methods {
        if is_selected(tables, *method, selector) {
            return Some(*method);
        }
    }
    None
}

// Whether a method has the selector.
fn is_selected(tables: &Tables, method: u16, selector: u16) -> bool
    ensures { result ≡ has_selector (slice_get tables.now.methods method) selector }
{
    match tables.methods.as_slice().get(usize::from(method)) {
        Some(found) => found.selector == selector,
        None => false,
    }
}

/// The place of a field among the values of objects of class c, where they have it.
pub fn slot_of(tables: &Tables, c: u16, field: u32) -> Option<u32>
    ensures { result ≡ tables_of.slot_of tables.now c field }
{
    match field_at(tables, field) {
        Some(found) => slot_in_class(tables, c, found),
        None => None,
    }
}

// The place of this field among the values of objects of class c, where they have it.
fn slot_in_class(tables: &Tables, c: u16, field: Field) -> Option<u32>
    ensures { result ≡ slot_in tables.now c (Some field) }
{
    match field.owner {
        Owner::InClass(d) => {
            if is_below(tables, c, d) {
                Some(field.slot)
            } else {
                None
            }
        }
        Owner::InComponent(_) => None,
    }
}

/// The place of a field among those of all components, where it is one of a component.
pub fn global_slot(tables: &Tables, field: u32) -> Option<u32>
    ensures { result ≡ tables_of.global_slot tables.now field }
{
    match field_at(tables, field) {
        Some(found) => match found.owner {
            Owner::InClass(_) => None,
            Owner::InComponent(_) => Some(found.slot),
        },
        None => None,
    }
}

/// The type of a field.
pub fn field_type(tables: &Tables, field: u32) -> Option<CoreType>
    ensures { result ≡ tables_of.field_type tables.now field }
{
    match field_at(tables, field) {
        Some(found) => Some(found.type_),
        None => None,
    }
}

// The field of this number.
fn field_at(tables: &Tables, field: u32) -> Option<Field>
    ensures { result ≡ slice_get tables.now.fields field }
{
    match tables.fields.as_slice().get(field as usize) {
        Some(found) => Some(*found),
        None => None,
    }
}
