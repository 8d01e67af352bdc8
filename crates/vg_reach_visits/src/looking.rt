// What follows from a member.
ghost use Rattle.std.specs.Prelude.{◌≡◌, ℕ, OnOk, Some, length, slice_get};
ghost use Rattle.vg_core.specs.declared.member.Member.TheVariants as member;
ghost use Rattle.vg_core.specs.declared.step.Step as steps;
ghost use Rattle.vg_core.specs.HeldProgram.{program_at};
ghost use Rattle.vg_core.specs.Heap.{class_in};
ghost use Rattle.vg_live.specs.Sets.{IsIn};
ghost use Rattle.vg_live.specs.Uses as uses;
ghost use Rattle.vg_reach_index.specs.Indexed.{Indexes};
ghost use Rattle.vg_reach_visits.specs.Visited.{CellDone, FieldDone, LookedAt, MethodDone, Ready, VisitedAll, Works};

use crate::meeting::{meet_first, meet_site};
use crate::seen::{Work, site_of};
use std::alloc::Global;
use vg_base::NoMemory;
use vg_core::{Member, Program, Step};
use vg_reach_holding::{hold_component, hold_fields, hold_items, hold_objects, name};
use vg_reach_index::Index;
use vg_shape::Store;
use vg_uses::steps_of;

/// Marks what follows from a live member and those that were looked at before, and looks at it.
pub fn visit(
    alloc: Global,
    program: &Program,
    heap: &Store,
    index: &Index,
    work: &mut Work,
    member: Member,
) -> Result<(), NoMemory>
    requires indexed { Indexes program.now.tables heap.now index.now }
    requires classes { work.old.seen.classes ≡ length program.now.tables.classes }
    ensures { OnOk result (Ready (program_at program.now) heap.now work.old → IsIn work.old.marks.set member
        → Works (program_at program.now) heap.now work.old work.new × VisitedAll (program_at program.now) heap.now work.old work.new member) }
{
    match member {
        Member::Method(method) => visit_method(alloc, program, heap, index, work, method),
        Member::Field(field) => visit_field(program, heap, index, work, field),
        Member::Cell(cell) => visit_cell(program, heap, index, work, cell),
    }
}

// Looks at a step of a method.
fn look_at(
    program: &Program,
    heap: &Store,
    index: &Index,
    work: &mut Work,
    method: u16,
    step: Step,
) -> Result<(), NoMemory>
    requires { Indexes program.now.tables heap.now index.now }
    ensures { OnOk result ((i : ℕ) → Ready (program_at program.now) heap.now work.old → IsIn work.old.marks.set (member.Method method)
        → slice_get (uses.steps_of (program_at program.now) method) i ≡ Some step
        → Works (program_at program.now) heap.now work.old work.new × LookedAt (program_at program.now) heap.now work.new step) }
{
    name(&mut work.marks, method, step)?;
    match site_of(method, step) {
        Some(site) => meet_site(program, heap, index, work, site),
        None => Ok(()),
    }
}

// Looks at the steps of a method.
fn visit_method(
    alloc: Global,
    program: &Program,
    heap: &Store,
    index: &Index,
    work: &mut Work,
    method: u16,
) -> Result<(), NoMemory>
    requires { Indexes program.now.tables heap.now index.now }
    ensures { OnOk result (Ready (program_at program.now) heap.now work.old → IsIn work.old.marks.set (member.Method method)
        → Works (program_at program.now) heap.now work.old work.new × MethodDone (program_at program.now) heap.now work.new method) }
{
    let steps = steps_of(alloc, program, method)?;
    look_at_all(program, heap, index, work, method, steps.as_slice())
}

// Looks at these steps, which are those of a method.
fn look_at_all(
    program: &Program,
    heap: &Store,
    index: &Index,
    work: &mut Work,
    method: u16,
    steps: &[Step],
) -> Result<(), NoMemory>
    requires indexed { Indexes program.now.tables heap.now index.now }
    requires steps { steps.now ≡ uses.steps_of (program_at program.now) method }
    ensures { OnOk result (Ready (program_at program.now) heap.now work.old → IsIn work.old.marks.set (member.Method method)
        → Works (program_at program.now) heap.now work.old work.new × MethodDone (program_at program.now) heap.now work.new method) }
{
    for step in steps {
        look_at(program, heap, index, work, method, *step)?;
    }
    Ok(())
}

// Looks at a field.
fn visit_field(
    program: &Program,
    heap: &Store,
    index: &Index,
    work: &mut Work,
    field: u32,
) -> Result<(), NoMemory>
    requires indexed { Indexes program.now.tables heap.now index.now }
    requires classes { work.old.seen.classes ≡ length program.now.tables.classes }
    ensures { OnOk result (Ready (program_at program.now) heap.now work.old → IsIn work.old.marks.set (member.Field field)
        → Works (program_at program.now) heap.now work.old work.new × FieldDone (program_at program.now) heap.now work.old work.new field) }
{
    hold_component(program, heap, &mut work.marks, field)?;
    hold_objects(
        program,
        heap,
        index,
        &mut work.marks,
        field,
        work.seen.classes,
    )
}

// Looks at an object or an array.
fn visit_cell(
    program: &Program,
    heap: &Store,
    index: &Index,
    work: &mut Work,
    cell: u32,
) -> Result<(), NoMemory>
    requires { Indexes program.now.tables heap.now index.now }
    ensures { OnOk result (Ready (program_at program.now) heap.now work.old → IsIn work.old.marks.set (member.Cell cell)
        → Works (program_at program.now) heap.now work.old work.new × CellDone (program_at program.now) heap.now work.old work.new cell) }
{
    match heap.class_of(cell) {
        Some(class) => visit_object(program, heap, index, work, class, cell),
        None => hold_items(program, heap, &mut work.marks, cell),
    }
}

// Looks at an object of a class.
fn visit_object(
    program: &Program,
    heap: &Store,
    index: &Index,
    work: &mut Work,
    class: u16,
    cell: u32,
) -> Result<(), NoMemory>
    requires indexed { Indexes program.now.tables heap.now index.now }
    requires object { class_in (slice_get heap.now.cells cell) ≡ Some class }
    ensures { OnOk result (Ready (program_at program.now) heap.now work.old → IsIn work.old.marks.set (member.Cell cell)
        → Works (program_at program.now) heap.now work.old work.new × CellDone (program_at program.now) heap.now work.old work.new cell) }
{
    meet_first(program, heap, index, work, class, cell)?;
    hold_fields(program, heap, index, &mut work.marks, class, cell)
}
