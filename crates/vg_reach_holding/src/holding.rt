// What values refer to.
ghost use Rattle.std.specs.Prelude.{◌≡◌, ◌<◌, ℕ, MatchOption, None, OnOk, Option, Some, is_some, length, slice_get};
ghost use Rattle.vg_core.specs.declared.member.Member.TheVariants as member;
ghost use Rattle.vg_core.specs.HeldProgram.{program_at};
ghost use Rattle.vg_core.specs.Heap.{OfArray, OfComponent, OfObject, class_in, items_in, value_at};
ghost use Rattle.vg_core.specs.Tables.{slot_of};
ghost use Rattle.vg_live.specs.Sets.{IsIn};
ghost use Rattle.vg_reach_index.specs.Indexed.{Indexes, AreRows};
ghost use Rattle.vg_reach_marks.specs.Growing.{Goes, Sound};
ghost use Rattle.vg_reach_holding.specs.Done.{HoldsAll, KeepsAll, PlaceDone};

use vg_base::NoMemory;
use vg_core::{Cell, CoreValue, Member, Owner, Program, Tables};
use vg_reach_index::Index;
use vg_reach_marks::Marks;
use vg_shape::Store;

/// Marks what a value refers to: by this rule, and by rule 8 where it is a delegate.
pub fn hold(
    marks: &mut Marks,
    value: CoreValue,
    rule: u8,
    from: Option<Member>,
    also: Option<Member>,
) -> Result<(), NoMemory>
    ensures { OnOk result (HoldsAll marks.old marks.new value rule from also) }
{
    match value {
        CoreValue::Obj(cell) => marks.mark(Member::Cell(cell), rule, from, also),
        CoreValue::Arr(cell) => marks.mark(Member::Cell(cell), rule, from, also),
        CoreValue::Bound(receiver, method) => hold_delegate(marks, receiver, method, from, also),
        CoreValue::Int(_)
        | CoreValue::Bool(_)
        | CoreValue::Char(_)
        | CoreValue::Raw(_, _)
        | CoreValue::Null => Ok(()),
    }
}

// Marks the method of a delegate, and its receiver.
fn hold_delegate(
    marks: &mut Marks,
    receiver: Option<u32>,
    method: u16,
    from: Option<Member>,
    also: Option<Member>,
) -> Result<(), NoMemory>
    ensures { OnOk result (KeepsAll marks.old marks.new receiver method from also) }
{
    marks.mark(Member::Method(method), 8, from, also)?;
    match receiver {
        Some(cell) => marks.mark(Member::Cell(cell), 8, from, also),
        None => Ok(()),
    }
}

/// Marks what a field of a component holds.
pub fn hold_component(
    program: &Program,
    heap: &Store,
    marks: &mut Marks,
    field: u32,
) -> Result<(), NoMemory>
    ensures { OnOk result (Sound (program_at program.now) heap.now marks.old → IsIn marks.old.set (member.Field field)
        → Goes (program_at program.now) heap.now marks.old marks.new × PlaceDone (program_at program.now) heap.now marks.new (OfComponent field)) }
{
    match heap.component_field(&program.tables, field) {
        Some(value) => hold(marks, value, 7, Some(Member::Field(field)), None),
        None => Ok(()),
    }
}

/// Marks what a field of an object holds.
pub fn hold_object(
    program: &Program,
    heap: &Store,
    marks: &mut Marks,
    field: u32,
    cell: u32,
) -> Result<(), NoMemory>
    ensures { OnOk result (Sound (program_at program.now) heap.now marks.old → IsIn marks.old.set (member.Field field) → IsIn marks.old.set (member.Cell cell)
        → Goes (program_at program.now) heap.now marks.old marks.new × PlaceDone (program_at program.now) heap.now marks.new (OfObject cell field)) }
{
    match heap.field(&program.tables, cell, field) {
        Some(value) => hold(
            marks,
            value,
            9,
            Some(Member::Field(field)),
            Some(Member::Cell(cell)),
        ),
        None => Ok(()),
    }
}

// Marks what a live field of an object holds, where the object is marked.
fn hold_if_cell(
    program: &Program,
    heap: &Store,
    marks: &mut Marks,
    field: u32,
    cell: u32,
) -> Result<(), NoMemory>
    ensures { OnOk result (Sound (program_at program.now) heap.now marks.old → IsIn marks.old.set (member.Field field)
        → Goes (program_at program.now) heap.now marks.old marks.new
        × (IsIn marks.old.set (member.Cell cell) → PlaceDone (program_at program.now) heap.now marks.new (OfObject cell field))) }
{
    match marks.reason(Member::Cell(cell)) {
        Some(_) => hold_object(program, heap, marks, field, cell),
        None => Ok(()),
    }
}

// Marks what a field of a live object holds, where the field is marked.
fn hold_if_field(
    program: &Program,
    heap: &Store,
    marks: &mut Marks,
    field: u32,
    cell: u32,
) -> Result<(), NoMemory>
    ensures { OnOk result (Sound (program_at program.now) heap.now marks.old → IsIn marks.old.set (member.Cell cell)
        → Goes (program_at program.now) heap.now marks.old marks.new
        × (IsIn marks.old.set (member.Field field) → PlaceDone (program_at program.now) heap.now marks.new (OfObject cell field))) }
{
    match marks.reason(Member::Field(field)) {
        Some(_) => hold_object(program, heap, marks, field, cell),
        None => Ok(()),
    }
}

// Marks what a live field holds in these objects, where they are marked.
fn hold_in(
    program: &Program,
    heap: &Store,
    marks: &mut Marks,
    field: u32,
    cells: &[u32],
) -> Result<(), NoMemory>
    ensures { OnOk result (Sound (program_at program.now) heap.now marks.old → IsIn marks.old.set (member.Field field)
        → Goes (program_at program.now) heap.now marks.old marks.new
        × ((i k : ℕ) → slice_get cells.now i ≡ Some k → IsIn marks.old.set (member.Cell k)
        → PlaceDone (program_at program.now) heap.now marks.new (OfObject k field))) }
{
    for cell in cells {
        hold_if_cell(program, heap, marks, field, *cell)?;
    }
    Ok(())
}

// Whether objects of a class have a field.
fn has_field(index: &Index, tables: &Tables, class: u16, field: u32) -> bool
    requires { AreRows tables.now index.now.classes }
    ensures { result ≡ is_some (slot_of tables.now class field) }
{
    match tables.fields.as_slice().get(field as usize) {
        Some(found) => match found.owner {
            Owner::InClass(above) => index.is_below(tables, class, above),
            Owner::InComponent(_) => false,
        },
        None => false,
    }
}

// Marks what a live field holds in the objects of a class, where they are marked.
fn hold_class(
    program: &Program,
    heap: &Store,
    index: &Index,
    marks: &mut Marks,
    field: u32,
    class: u16,
) -> Result<(), NoMemory>
    requires { Indexes program.now.tables heap.now index.now }
    ensures { OnOk result (Sound (program_at program.now) heap.now marks.old → IsIn marks.old.set (member.Field field)
        → Goes (program_at program.now) heap.now marks.old marks.new
        × ((k : ℕ) → class_in (slice_get heap.now.cells k) ≡ Some class → IsIn marks.old.set (member.Cell k)
        → PlaceDone (program_at program.now) heap.now marks.new (OfObject k field))) }
{
    if !has_field(index, &program.tables, class, field) {
        return Ok(());
    }
    match index.cells(class) {
        Some(cells) => hold_in(program, heap, marks, field, cells),
        None => Ok(()),
    }
}

/// Marks what a live field of a class holds in the objects that are marked.
pub fn hold_objects(
    program: &Program,
    heap: &Store,
    index: &Index,
    marks: &mut Marks,
    field: u32,
    classes: u16,
) -> Result<(), NoMemory>
    requires indexed { Indexes program.now.tables heap.now index.now }
    requires classes { classes ≡ length program.now.tables.classes }
    ensures { OnOk result (Sound (program_at program.now) heap.now marks.old → IsIn marks.old.set (member.Field field)
        → Goes (program_at program.now) heap.now marks.old marks.new
        × ((k : ℕ) → IsIn marks.old.set (member.Cell k) → PlaceDone (program_at program.now) heap.now marks.new (OfObject k field))) }
{
    for class in 0..classes {
        hold_class(program, heap, index, marks, field, class)?;
    }
    Ok(())
}

/// Marks what a live object of a class holds in the fields that are marked.
pub fn hold_fields(
    program: &Program,
    heap: &Store,
    index: &Index,
    marks: &mut Marks,
    class: u16,
    cell: u32,
) -> Result<(), NoMemory>
    requires indexed { Indexes program.now.tables heap.now index.now }
    requires object { class_in (slice_get heap.now.cells cell) ≡ Some class }
    ensures { OnOk result (Sound (program_at program.now) heap.now marks.old → IsIn marks.old.set (member.Cell cell)
        → Goes (program_at program.now) heap.now marks.old marks.new
        × ((f : ℕ) → IsIn marks.old.set (member.Field f) → PlaceDone (program_at program.now) heap.now marks.new (OfObject cell f))) }
{
    match index.fields(class) {
        Some(fields) => hold_these(program, heap, marks, fields, cell),
        None => Ok(()),
    }
}

// Marks what a live object holds in these fields, where they are marked.
fn hold_these(
    program: &Program,
    heap: &Store,
    marks: &mut Marks,
    fields: &[u32],
    cell: u32,
) -> Result<(), NoMemory>
    ensures { OnOk result (Sound (program_at program.now) heap.now marks.old → IsIn marks.old.set (member.Cell cell)
        → Goes (program_at program.now) heap.now marks.old marks.new
        × ((i f : ℕ) → slice_get fields.now i ≡ Some f → IsIn marks.old.set (member.Field f)
        → PlaceDone (program_at program.now) heap.now marks.new (OfObject cell f))) }
{
    for field in fields {
        hold_if_field(program, heap, marks, *field, cell)?;
    }
    Ok(())
}

/// Marks what the elements of a live array hold.
pub fn hold_items(
    program: &Program,
    heap: &Store,
    marks: &mut Marks,
    cell: u32,
) -> Result<(), NoMemory>
    ensures { OnOk result (Sound (program_at program.now) heap.now marks.old → IsIn marks.old.set (member.Cell cell)
        → Goes (program_at program.now) heap.now marks.old marks.new
        × ((i : ℕ) → PlaceDone (program_at program.now) heap.now marks.new (OfArray cell i))) }
{
    match items_of(heap, cell) {
        Some(values) => hold_values(program, heap, marks, cell, values),
        None => Ok(()),
    }
}

// The elements of an array.
fn items_of(heap: &Store, cell: u32) -> Option<&[CoreValue]>
    ensures { MatchOption result (items_in (slice_get heap.entry.now.cells cell) ≡ None) (λ found.
        items_in (slice_get heap.entry.now.cells cell) ≡ Some found.now) }
{
    match heap.cells().get(cell as usize) {
        Some(Cell::Array(_, values)) => Some(values.as_slice()),
        Some(Cell::Object(_, _)) => None,
        None => None,
    }
}

// Marks what the elements of a live array hold.
fn hold_values(
    program: &Program,
    heap: &Store,
    marks: &mut Marks,
    cell: u32,
    values: &[CoreValue],
) -> Result<(), NoMemory>
    requires { items_in (slice_get heap.now.cells cell) ≡ Some values.now }
    ensures { OnOk result (Sound (program_at program.now) heap.now marks.old → IsIn marks.old.set (member.Cell cell)
        → Goes (program_at program.now) heap.now marks.old marks.new
        × ((i : ℕ) → PlaceDone (program_at program.now) heap.now marks.new (OfArray cell i))) }
{
    for value in values {
        hold(marks, *value, 10, Some(Member::Cell(cell)), None)?;
    }
    Ok(())
}
