// What live places hold.
ghost use Rattle.std.specs.Prelude.{◌≡◌, ◌<◌, ◌^◌, [], OnOk, if◌then◌else◌, length, slice_get};
ghost use Rattle.vg_core.specs.Heap.{OfComponent, OfObject, value_at};
ghost use Rattle.vg_core.specs.Tables.{fields_in};
ghost use Rattle.vg_live.specs.Sets.{flat};
ghost use Rattle.vg_number.specs.Numbering.{has_reason};
ghost use Rattle.vg_plan_uses.specs.Held as held;
ghost use Rattle.vg_plan_uses.specs.Sets.{with_all, IsSet};

use crate::set::ProcedureSet;
use vg_base::NoMemory;
use vg_core::{Cell, CoreValue, Tables};
use vg_live::LiveSet;
use vg_number::is_kept;
use vg_pack_code::Plan;
use vg_shape::Store;

// The procedure of a method, where it has one.
pub(crate) fn procedure_of(plan: &Plan, method: u16) -> Option<u16>
    ensures { result ≡ flat (slice_get plan.now.procedures method) }
{
    match plan.procedures.as_slice().get(usize::from(method)) {
        Some(found) => *found,
        None => None,
    }
}

// Notes the procedure of a delegate.
fn note_value(set: &mut ProcedureSet, plan: &Plan, value: CoreValue) -> Result<(), NoMemory>
    requires { IsSet set.old }
    ensures is { OnOk result (IsSet set.new) }
    ensures room { OnOk result (length set.new.marks ≡ length set.old.marks) }
    ensures list { OnOk result (set.new.list ≡ with_all (length set.old.marks) set.old.list (held.in_value plan.now value)) }
{
    match value {
        CoreValue::Bound(_, method) => set.note_if(procedure_of(plan, method)),
        CoreValue::Int(_)
        | CoreValue::Bool(_)
        | CoreValue::Char(_)
        | CoreValue::Raw(_, _)
        | CoreValue::Null
        | CoreValue::Obj(_)
        | CoreValue::Arr(_) => Ok(()),
    }
}

// The same, where there is a value.
fn note_option(
    set: &mut ProcedureSet,
    plan: &Plan,
    value: Option<CoreValue>,
) -> Result<(), NoMemory>
    requires { IsSet set.old }
    ensures is { OnOk result (IsSet set.new) }
    ensures room { OnOk result (length set.new.marks ≡ length set.old.marks) }
    ensures list { OnOk result (set.new.list ≡ with_all (length set.old.marks) set.old.list (held.in_option plan.now value)) }
{
    match value {
        Some(found) => note_value(set, plan, found),
        None => Ok(()),
    }
}

// Notes what a field of a component holds, where the field is live.
fn note_component(
    set: &mut ProcedureSet,
    tables: &Tables,
    heap: &Store,
    live: &LiveSet,
    plan: &Plan,
    field: u32,
) -> Result<(), NoMemory>
    requires { IsSet set.old }
    ensures is { OnOk result (IsSet set.new) }
    ensures room { OnOk result (length set.new.marks ≡ length set.old.marks) }
    ensures list { OnOk result (set.new.list ≡ with_all (length set.old.marks) set.old.list
        (if has_reason live.now.fields field then held.in_option plan.now (value_at tables.now heap.now (OfComponent field)) else [])) }
{
    if is_kept(live.fields.as_slice(), field as usize) {
        note_option(set, plan, heap.component_field(tables, field))
    } else {
        Ok(())
    }
}

/// Notes what the live fields of components hold.
pub fn note_components(
    set: &mut ProcedureSet,
    tables: &Tables,
    heap: &Store,
    live: &LiveSet,
    plan: &Plan,
) -> Result<(), NoMemory>
    requires set { IsSet set.old }
    requires fields { length tables.now.fields < 2 ^ 32 }
    ensures is { OnOk result (IsSet set.new) }
    ensures room { OnOk result (length set.new.marks ≡ length set.old.marks) }
    ensures list { OnOk result (set.new.list ≡ with_all (length set.old.marks) set.old.list
        (held.in_components tables.now heap.now live.now plan.now 0 tables.now.fields)) }
{
    for field in 0..tables.fields.len() {
        note_component(set, tables, heap, live, plan, field as u32)?;
    }
    Ok(())
}

// Notes what a field of an object holds, where the field is live.
fn note_field(
    set: &mut ProcedureSet,
    tables: &Tables,
    heap: &Store,
    live: &LiveSet,
    plan: &Plan,
    cell: u32,
    field: u32,
) -> Result<(), NoMemory>
    requires { IsSet set.old }
    ensures is { OnOk result (IsSet set.new) }
    ensures room { OnOk result (length set.new.marks ≡ length set.old.marks) }
    ensures list { OnOk result (set.new.list ≡ with_all (length set.old.marks) set.old.list
        (if has_reason live.now.fields field then held.in_option plan.now (value_at tables.now heap.now (OfObject cell field)) else [])) }
{
    if is_kept(live.fields.as_slice(), field as usize) {
        note_option(set, plan, heap.field(tables, cell, field))
    } else {
        Ok(())
    }
}

// Notes what these fields of an object hold, where they are live.
fn note_fields(
    set: &mut ProcedureSet,
    tables: &Tables,
    heap: &Store,
    live: &LiveSet,
    plan: &Plan,
    cell: u32,
    fields: &[u32],
) -> Result<(), NoMemory>
    requires { IsSet set.old }
    ensures is { OnOk result (IsSet set.new) }
    ensures room { OnOk result (length set.new.marks ≡ length set.old.marks) }
    ensures list { OnOk result (set.new.list ≡ with_all (length set.old.marks) set.old.list
        (held.in_object tables.now heap.now live.now plan.now cell fields.now)) }
{
    for field in fields {
        note_field(set, tables, heap, live, plan, cell, *field)?;
    }
    Ok(())
}

// Notes what these elements hold.
fn note_items(set: &mut ProcedureSet, plan: &Plan, values: &[CoreValue]) -> Result<(), NoMemory>
    requires { IsSet set.old }
    ensures is { OnOk result (IsSet set.new) }
    ensures room { OnOk result (length set.new.marks ≡ length set.old.marks) }
    ensures list { OnOk result (set.new.list ≡ with_all (length set.old.marks) set.old.list (held.in_items plan.now values.now)) }
{
    for value in values {
        note_value(set, plan, *value)?;
    }
    Ok(())
}

// Notes what the places of a cell hold, but for fields that are not live.
fn note_cell(
    set: &mut ProcedureSet,
    tables: &Tables,
    heap: &Store,
    live: &LiveSet,
    plan: &Plan,
    number: u32,
    cell: &Cell,
) -> Result<(), NoMemory>
    requires { IsSet set.old }
    ensures is { OnOk result (IsSet set.new) }
    ensures room { OnOk result (length set.new.marks ≡ length set.old.marks) }
    ensures list { OnOk result (set.new.list ≡ with_all (length set.old.marks) set.old.list
        (held.in_cell tables.now heap.now live.now plan.now number cell.now)) }
{
    match cell {
        Cell::Object(class, _) => note_fields(
            set,
            tables,
            heap,
            live,
            plan,
            number,
            fields_of(tables, *class),
        ),
        Cell::Array(_, values) => note_items(set, plan, values.as_slice()),
    }
}

// The fields of the objects of a class.
fn fields_of(tables: &Tables, class: u16) -> &[u32]
    ensures { result.now ≡ fields_in (slice_get tables.entry.now.classes class) }
{
    match tables.classes.as_slice().get(usize::from(class)) {
        Some(found) => found.fields.as_slice(),
        None => &[],
    }
}

// Notes what the places of a cell hold, where it is live.
fn note_if_live(
    set: &mut ProcedureSet,
    tables: &Tables,
    heap: &Store,
    live: &LiveSet,
    plan: &Plan,
    number: u32,
    cell: &Cell,
) -> Result<(), NoMemory>
    requires { IsSet set.old }
    ensures is { OnOk result (IsSet set.new) }
    ensures room { OnOk result (length set.new.marks ≡ length set.old.marks) }
    ensures list { OnOk result (set.new.list ≡ with_all (length set.old.marks) set.old.list
        (if has_reason live.now.cells number then held.in_cell tables.now heap.now live.now plan.now number cell.now else [])) }
{
    if is_kept(live.cells.as_slice(), number as usize) {
        note_cell(set, tables, heap, live, plan, number, cell)
    } else {
        Ok(())
    }
}

/// Notes what the live places of cells hold.
pub fn note_cells(
    set: &mut ProcedureSet,
    tables: &Tables,
    heap: &Store,
    live: &LiveSet,
    plan: &Plan,
) -> Result<(), NoMemory>
    requires set { IsSet set.old }
    requires cells { length heap.now.cells < 2 ^ 32 }
    ensures is { OnOk result (IsSet set.new) }
    ensures room { OnOk result (length set.new.marks ≡ length set.old.marks) }
    ensures list { OnOk result (set.new.list ≡ with_all (length set.old.marks) set.old.list
        (held.in_cells tables.now heap.now live.now plan.now 0 heap.now.cells)) }
{
    let cells = heap.cells();
    for number in 0..cells.len() {
        note_if_live(set, tables, heap, live, plan, number as u32, &cells[number])?;
    }
    Ok(())
}
