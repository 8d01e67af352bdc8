// The values of the heap in their columns.
ghost use Rattle.std.specs.Prelude.{◌≡◌, ◌<◌, ◌^◌, ◌-◌, [], IfOk, Some, get_or, length, slice_get};
ghost use Rattle.vg_codes.specs.Codes.{Codes};
ghost use Rattle.vg_core.specs.declared.heap.Cell.TheVariants as cells;
ghost use Rattle.vg_core.specs.Heap.{OfComponent, OfObject};
ghost use Rattle.vg_core.specs.Tables.{fields_in};
ghost use Rattle.vg_number.specs.Numbering.{kinds_of};
ghost use Rattle.vg_pack_code.specs.declared.plan.Plan.{Plan as PlanValue};
ghost use Rattle.vg_pack_code.specs.Plans.{layout_by};
ghost use Rattle.vg_packing.specs.Layout as layout;
ghost use Rattle.vg_pack_values.specs.Columns.{blank_rows, numbers_in};
ghost use Rattle.vg_pack_values.specs.Places.{all_places, cell_places, cells_from, components_from, items_from, kept_places, object_places, with_place, with_places};

use crate::blank::blank_columns;
use crate::putting::put;
use std::alloc::Global;
use vg_base::{NoMemory, Row};
use vg_core::{Cell, CoreValue, Owner, Tables};
use vg_number::Numbers;
use vg_pack_code::{Plan, number_of, span_of};
use vg_placement::Column;
use vg_shape::Store;
use vg_tables::{Entry, entry_of};

/// The values with which the columns in RAM begin: each has those that the heap has in the places which stand there.
pub fn first_columns(
    alloc: Global,
    tables: &Tables,
    heap: &Store,
    numbers: &Numbers,
    plan: &Plan,
    columns: &[Column],
) -> Result<Row<Row<Entry>>, NoMemory>
    requires fields { length tables.now.fields < 2 ^ 32 }
    requires cells { length heap.now.cells < 2 ^ 32 }
    ensures { IfOk result (λ rows. (k : Codes) → numbers_in k rows
        ≡ with_places tables.now heap.now (layout_by (kinds_of heap.now) numbers.now plan.now) k (all_places tables.now heap.now numbers.now)
        (numbers_in k (blank_rows columns.now))) }
{
    let mut rows = blank_columns(alloc, columns)?;
    put_components(alloc, &mut rows, tables, heap, numbers, plan);
    put_cells(alloc, &mut rows, tables, heap, numbers, plan);
    Ok(Row::from_vec(rows))
}

// Puts in the fields of components.
fn put_components(
    alloc: Global,
    rows: &mut Vec<Row<Entry>>,
    tables: &Tables,
    heap: &Store,
    numbers: &Numbers,
    plan: &Plan,
)
    requires { length tables.now.fields < 2 ^ 32 }
    ensures { (k : Codes) → numbers_in k rows.new.items
        ≡ with_places tables.now heap.now (layout_by (kinds_of heap.now) numbers.now plan.now) k (components_from 0 tables.now.fields) (numbers_in k rows.old.items) }
{
    for field in 0..tables.fields.len() {
        put_component(alloc, rows, tables, heap, numbers, plan, field as u32);
    }
}

// Puts in a field, where it is one of a component and has a column.
fn put_component(
    alloc: Global,
    rows: &mut Vec<Row<Entry>>,
    tables: &Tables,
    heap: &Store,
    numbers: &Numbers,
    plan: &Plan,
    field: u32,
)
    ensures { (k : Codes) → numbers_in k rows.new.items
        ≡ with_place tables.now heap.now (layout_by (kinds_of heap.now) numbers.now plan.now) k (OfComponent field) (numbers_in k rows.old.items) }
{
    match plan.column(field) {
        Some(place) => match heap.component_field(tables, field) {
            Some(value) => put(
                alloc,
                rows,
                place.home,
                place.column,
                0,
                entry_of(numbers, plan, value),
            ),
            None => {}
        },
        None => {}
    }
}

// Puts in the kept cells.
fn put_cells(
    alloc: Global,
    rows: &mut Vec<Row<Entry>>,
    tables: &Tables,
    heap: &Store,
    numbers: &Numbers,
    plan: &Plan,
)
    requires { length heap.now.cells < 2 ^ 32 }
    ensures { (k : Codes) → numbers_in k rows.new.items
        ≡ with_places tables.now heap.now (layout_by (kinds_of heap.now) numbers.now plan.now) k (cells_from tables.now numbers.now 0 heap.now.cells) (numbers_in k rows.old.items) }
{
    let cells = heap.cells();
    for number in 0..cells.len() {
        put_kept(
            alloc,
            rows,
            tables,
            heap,
            numbers,
            plan,
            number as u32,
            &cells[number],
        );
    }
}

// Puts in a cell, where it is kept.
fn put_kept(
    alloc: Global,
    rows: &mut Vec<Row<Entry>>,
    tables: &Tables,
    heap: &Store,
    numbers: &Numbers,
    plan: &Plan,
    number: u32,
    cell: &Cell,
)
    requires { slice_get heap.now.cells number ≡ Some cell.now }
    ensures { (k : Codes) → numbers_in k rows.new.items
        ≡ with_places tables.now heap.now (layout_by (kinds_of heap.now) numbers.now plan.now) k (kept_places tables.now numbers.now number cell.now) (numbers_in k rows.old.items) }
{
    if number_of(numbers, number) != 0 {
        put_cell(alloc, rows, tables, heap, numbers, plan, number, cell);
    }
}

// Puts in the fields of an object, or the elements of an array.
fn put_cell(
    alloc: Global,
    rows: &mut Vec<Row<Entry>>,
    tables: &Tables,
    heap: &Store,
    numbers: &Numbers,
    plan: &Plan,
    number: u32,
    cell: &Cell,
)
    requires { slice_get heap.now.cells number ≡ Some cell.now }
    ensures { (k : Codes) → numbers_in k rows.new.items
        ≡ with_places tables.now heap.now (layout_by (kinds_of heap.now) numbers.now plan.now) k (cell_places tables.now number cell.now) (numbers_in k rows.old.items) }
{
    match cell {
        Cell::Object(class, _) => {
            let fields = fields_of(tables, *class);
            put_fields(alloc, rows, tables, heap, numbers, plan, number, fields)
        }
        Cell::Array(element, values) => put_items(
            alloc,
            rows,
            tables,
            heap,
            numbers,
            plan,
            number,
            *element,
            values.as_slice(),
        ),
    }
}

// The fields of the objects of a class.
fn fields_of(tables: &Tables, class: u16) -> &[u32]
    ensures { result.now ≡ fields_in (slice_get tables.entry.now.classes class) }
{
    match tables.classes.as_slice().get(usize::from(class)) {
        Some(found) => found.fields.as_slice(),
        None => &[],
    }
}

// Puts in these fields of an object.
fn put_fields(
    alloc: Global,
    rows: &mut Vec<Row<Entry>>,
    tables: &Tables,
    heap: &Store,
    numbers: &Numbers,
    plan: &Plan,
    cell: u32,
    fields: &[u32],
)
    ensures { (k : Codes) → numbers_in k rows.new.items
        ≡ with_places tables.now heap.now (layout_by (kinds_of heap.now) numbers.now plan.now) k (object_places cell fields.now) (numbers_in k rows.old.items) }
{
    for field in fields {
        put_field(alloc, rows, tables, heap, numbers, plan, cell, *field);
    }
}

// Puts in a field of an object, where it has a column.
fn put_field(
    alloc: Global,
    rows: &mut Vec<Row<Entry>>,
    tables: &Tables,
    heap: &Store,
    numbers: &Numbers,
    plan: &Plan,
    cell: u32,
    field: u32,
)
    ensures { (k : Codes) → numbers_in k rows.new.items
        ≡ with_place tables.now heap.now (layout_by (kinds_of heap.now) numbers.now plan.now) k (OfObject cell field) (numbers_in k rows.old.items) }
{
    match plan.column(field) {
        Some(place) => match heap.field(tables, cell, field) {
            Some(value) => put(
                alloc,
                rows,
                place.home,
                place.column,
                index_of(tables, numbers, cell, field),
                entry_of(numbers, plan, value),
            ),
            None => {}
        },
        None => {}
    }
}

// The index of an object in the column of a field: by its number, from that of the first object that has the field.
fn index_of(tables: &Tables, numbers: &Numbers, cell: u32, field: u32) -> usize
    ensures { (x : PlanValue) → result ≡ (layout_by [] numbers.now x).numbering.number cell - layout.first_with tables.now (layout_by [] numbers.now x) field }
{
    let number = number_of(numbers, cell);
    usize::from(number.saturating_sub(first_with(tables, numbers, field)))
}

// The number of the first object that has a field.
fn first_with(tables: &Tables, numbers: &Numbers, field: u32) -> u16
    ensures { (x : PlanValue) → result ≡ layout.first_with tables.now (layout_by [] numbers.now x) field }
{
    match tables.fields.as_slice().get(field as usize) {
        Some(found) => match found.owner {
            Owner::InClass(class) => span_of(numbers, class).first,
            Owner::InComponent(_) => 0,
        },
        None => 0,
    }
}

// Puts in the elements of an array.
fn put_items(
    alloc: Global,
    rows: &mut Vec<Row<Entry>>,
    tables: &Tables,
    heap: &Store,
    numbers: &Numbers,
    plan: &Plan,
    cell: u32,
    element: u32,
    values: &[CoreValue],
)
    requires { slice_get heap.now.cells cell ≡ Some (cells.Array element values.now) }
    ensures { (k : Codes) → numbers_in k rows.new.items
        ≡ with_places tables.now heap.now (layout_by (kinds_of heap.now) numbers.now plan.now) k (items_from cell 0 values.now) (numbers_in k rows.old.items) }
{
    let elements = plan.elements(element);
    let start = usize::from(start_of(plan, cell));
    for index in 0..values.len() {
        put(
            alloc,
            rows,
            elements.home,
            elements.column,
            start + index,
            entry_of(numbers, plan, value_in(values, index)),
        );
    }
}

// The value at a place of these.
fn value_in(values: &[CoreValue], place: usize) -> CoreValue
    requires { place < length values.now }
    ensures { slice_get values.now place ≡ Some result }
{
    values[place]
}

// How many elements stand before those of the array in a cell.
fn start_of(plan: &Plan, cell: u32) -> u16
    ensures { result ≡ get_or plan.now.starts cell 0 }
{
    match plan.starts.as_slice().get(cell as usize) {
        Some(start) => *start,
        None => 0,
    }
}
