// Fields and elements.
ghost use Rattle.std.specs.Prelude.{pos, slice_get};
ghost use Rattle.vg_core.specs.declared.value.CoreValue.TheVariants.{Int};
ghost use Rattle.vg_core.specs.Tables as tables_of;
ghost use Rattle.vg_core.specs.declared.step.Step.TheVariants as steps;
ghost use Rattle.vg_core.specs.Heap.{OfArray, OfObject};
ghost use Rattle.vg_core.specs.Meaning as meaning;
ghost use Rattle.vg_core.specs.Meaning.{put};
ghost use Rattle.vg_interp_run.specs.Run.{state, uncalled, world, Answers, Kept};

use crate::run::{Element, Run};
use crate::signal::Signal;
use vg_core::{CoreValue, Tables};
use vg_shape::lookup::field_type;

/// The value of a field of a component.
pub fn component_field(run: &mut Run, tables: &Tables, field: u32) -> Result<(), Signal>
    ensures answers { Answers result (state run.new) (world run.new) (meaning.step tables.now uncalled (steps.ComponentField field) (state run.old) (world run.old)) }
    ensures kept { Kept run.old run.new }
{
    let found = run.store.component_field(tables, field);
    run.push_found(found)
}

/// A field of a component is set.
pub fn set_component_field(run: &mut Run, tables: &Tables, field: u32) -> Result<(), Signal>
    ensures answers { Answers result (state run.new) (world run.new) (meaning.step tables.now uncalled (steps.SetComponentField field) (state run.old) (world run.old)) }
    ensures kept { Kept run.old run.new }
{
    let value = run.pop()?;
    let Some(type_) = field_type(tables, field) else {
        return Err(Signal::Wrong);
    };
    if !run.has_type(tables, type_, value) {
        return Err(Signal::Wrong);
    }
    match run.store.component_field(tables, field) {
        Some(_) => {
            run.store.set_component_field(tables, field, value);
            Ok(())
        }
        None => Err(Signal::Wrong),
    }
}

/// The value of a field of an object.
pub fn field(run: &mut Run, tables: &Tables, at: u32, field: u32) -> Result<(), Signal>
    ensures answers { Answers result (state run.new) (world run.new) (meaning.step tables.now uncalled (steps.Field at field) (state run.old) (world run.old)) }
    ensures kept { Kept run.old run.new }
{
    match run.pop()? {
        CoreValue::Obj(k) => {
            let found = run.store.field(tables, k, field);
            run.push_found(found)
        }
        CoreValue::Null => Err(Signal::Stops(1, at)),
        CoreValue::Int(_)
        | CoreValue::Bool(_)
        | CoreValue::Char(_)
        | CoreValue::Raw(_, _)
        | CoreValue::Arr(_)
        | CoreValue::Bound(_, _) => Err(Signal::Wrong),
    }
}

/// A field of an object is set.
pub fn set_field(run: &mut Run, tables: &Tables, at: u32, field: u32) -> Result<(), Signal>
    ensures answers { Answers result (state run.new) (world run.new) (meaning.step tables.now uncalled (steps.SetField at field) (state run.old) (world run.old)) }
    ensures kept { Kept run.old run.new }
{
    let value = run.pop()?;
    match run.pop()? {
        CoreValue::Obj(k) => store_field(run, tables, k, field, value),
        CoreValue::Null => Err(Signal::Stops(1, at)),
        CoreValue::Int(_)
        | CoreValue::Bool(_)
        | CoreValue::Char(_)
        | CoreValue::Raw(_, _)
        | CoreValue::Arr(_)
        | CoreValue::Bound(_, _) => Err(Signal::Wrong),
    }
}

// A field of the object in this cell is set.
fn store_field(
    run: &mut Run,
    tables: &Tables,
    k: u32,
    field: u32,
    value: CoreValue,
) -> Result<(), Signal>
    ensures answers { Answers result (state run.new) (world run.new)
        (meaning.set_place tables.now (tables_of.field_type tables.now field) (OfObject k field) value (state run.old) (world run.old)) }
    ensures kept { Kept run.old run.new }
{
    let Some(type_) = field_type(tables, field) else {
        return Err(Signal::Wrong);
    };
    if !run.has_type(tables, type_, value) {
        return Err(Signal::Wrong);
    }
    match run.store.field(tables, k, field) {
        Some(_) => {
            run.store.set_field(tables, k, field, value);
            Ok(())
        }
        None => Err(Signal::Wrong),
    }
}

/// An element of an array.
pub fn item(run: &mut Run, tables: &Tables, at: u32, t: u32) -> Result<(), Signal>
    ensures answers { Answers result (state run.new) (world run.new) (meaning.step tables.now uncalled (steps.Item at t) (state run.old) (world run.old)) }
    ensures kept { Kept run.old run.new }
{
    let index = run.pop()?;
    let array = run.pop()?;
    let element = run.element(at, t, array, index)?;
    load_element(run, tables, element)
}

// The value of this element.
fn load_element(run: &mut Run, tables: &Tables, element: Element) -> Result<(), Signal>
    ensures answers { Answers result (state run.new) (world run.new)
        (meaning.get_place tables.now (OfArray element.array element.index) (state run.old) (world run.old)) }
    ensures kept { Kept run.old run.new }
{
    let found = run.store.item(element.array, element.index);
    run.push_found(found)
}

/// An element of an array is set.
pub fn set_item(run: &mut Run, tables: &Tables, at: u32, t: u32) -> Result<(), Signal>
    ensures answers { Answers result (state run.new) (world run.new) (meaning.step tables.now uncalled (steps.SetItem at t) (state run.old) (world run.old)) }
    ensures kept { Kept run.old run.new }
{
    let value = run.pop()?;
    let index = run.pop()?;
    let array = run.pop()?;
    let element = run.element(at, t, array, index)?;
    store_element(run, tables, t, element, value)
}

// This element is set to a value of the type of this number.
fn store_element(
    run: &mut Run,
    tables: &Tables,
    t: u32,
    element: Element,
    value: CoreValue,
) -> Result<(), Signal>
    ensures answers { Answers result (state run.new) (world run.new)
        (meaning.set_place tables.now (slice_get tables.now.types t) (OfArray element.array element.index) value (state run.old) (world run.old)) }
    ensures kept { Kept run.old run.new }
{
    let Some(type_) = tables.types.as_slice().get(t as usize) else {
        return Err(Signal::Wrong);
    };
    if !run.has_type(tables, *type_, value) {
        return Err(Signal::Wrong);
    }
    match run.store.item(element.array, element.index) {
        Some(_) => {
            run.store.set_item(element.array, element.index, value);
            Ok(())
        }
        None => Err(Signal::Wrong),
    }
}

/// The length of an array.
pub fn length(run: &mut Run, tables: &Tables, at: u32, t: u32) -> Result<(), Signal>
    ensures answers { Answers result (state run.new) (world run.new) (meaning.step tables.now uncalled (steps.Length at t) (state run.old) (world run.old)) }
    ensures kept { Kept run.old run.new }
{
    match run.pop()? {
        CoreValue::Arr(k) => match run.store.length_of(t, k) {
            Some(size) => push_size(run, size),
            None => Err(Signal::Wrong),
        },
        CoreValue::Null => Err(Signal::Stops(1, at)),
        CoreValue::Int(_)
        | CoreValue::Bool(_)
        | CoreValue::Char(_)
        | CoreValue::Raw(_, _)
        | CoreValue::Obj(_)
        | CoreValue::Bound(_, _) => Err(Signal::Wrong),
    }
}

// A number of elements as an int.
fn push_size(run: &mut Run, size: usize) -> Result<(), Signal>
    ensures answers { Answers result (state run.new) (world run.new) (put (Int (pos size)) (state run.old) (world run.old)) }
    ensures kept { Kept run.old run.new }
{
    match i32::try_from(size) {
        Ok(n) => run.push(CoreValue::Int(n)),
        // No run makes so long an array.
        Err(_) => Err(Signal::NoMemory),
    }
}
