// The values of delegates.
ghost use Rattle.std.specs.Prelude.{◌≡◌, ◌<◌, ◌^◌, [], IfOk, OnOk, Some, length, map, slice_get};
ghost use Rattle.vg_codes.specs.Dispatch.{cases_of};
ghost use Rattle.vg_plan_uses.specs.Binding.{bound_by, is_bound, named, named_by};
ghost use Rattle.vg_plan_uses.specs.Sets.{with_all, IsSet};

use crate::held::{note_cells, note_components, procedure_of};
use crate::set::ProcedureSet;
use std::alloc::Global;
use vg_base::{NoMemory, Row};
use vg_codes::Case;
use vg_core::{Step, Tables};
use vg_live::LiveSet;
use vg_pack_code::Plan;
use vg_shape::Store;

/// Of each method, whether a delegate may be of it: these steps name it, which are those of all live methods, or a live place holds one.
///
/// Of the plan it sees the procedures and what is asked for, with the dispatches for that. `room` is the number of procedures.
pub fn bindable(
    alloc: Global,
    tables: &Tables,
    heap: &Store,
    live: &LiveSet,
    plan: &Plan,
    dispatches: &[Row<Case>],
    room: usize,
    steps: &[Step],
) -> Result<Row<bool>, NoMemory>
    requires asked { length plan.now.asked < 4294967296 }
    requires fields { length tables.now.fields < 2 ^ 32 }
    requires cells { length heap.now.cells < 2 ^ 32 }
    ensures { IfOk result (λ row. row ≡ map (is_bound room (bound_by tables.now heap.now live.now plan.now dispatches.now room steps.now)) plan.now.procedures) }
{
    let mut set = ProcedureSet::new(alloc, room)?;
    note_steps(&mut set, plan, dispatches, steps)?;
    note_components(&mut set, tables, heap, live, plan)?;
    note_cells(&mut set, tables, heap, live, plan)?;
    are_bound(alloc, &set, plan.procedures.as_slice())
}

// Notes what these steps name.
fn note_steps(
    set: &mut ProcedureSet,
    plan: &Plan,
    dispatches: &[Row<Case>],
    steps: &[Step],
) -> Result<(), NoMemory>
    requires set { IsSet set.old }
    requires asked { length plan.now.asked < 4294967296 }
    ensures is { OnOk result (IsSet set.new) }
    ensures room { OnOk result (length set.new.marks ≡ length set.old.marks) }
    ensures list { OnOk result (set.new.list ≡ with_all (length set.old.marks) set.old.list (named plan.now dispatches.now steps.now)) }
{
    for index in 0..steps.len() {
        note_step(set, plan, dispatches, step_at(steps, index))?;
    }
    Ok(())
}

// Notes what a step names.
fn note_step(
    set: &mut ProcedureSet,
    plan: &Plan,
    dispatches: &[Row<Case>],
    step: Step,
) -> Result<(), NoMemory>
    requires set { IsSet set.old }
    requires asked { length plan.now.asked < 4294967296 }
    ensures is { OnOk result (IsSet set.new) }
    ensures room { OnOk result (length set.new.marks ≡ length set.old.marks) }
    ensures list { OnOk result (set.new.list ≡ with_all (length set.old.marks) set.old.list (named_by plan.now dispatches.now step)) }
{
    match step {
        Step::ComponentMethod(method) => set.note_if(procedure_of(plan, method)),
        Step::MethodOf(_, class, selector) => {
            set.note_cases(cases_at(dispatches, plan.dispatch(class, selector)))
        }
        _ => Ok(()),
    }
}

// The step at a place of these.
pub(crate) fn step_at(steps: &[Step], place: usize) -> Step
    requires { place < length steps.now }
    ensures { slice_get steps.now place ≡ Some result }
{
    steps[place]
}

// The cases of a dispatch.
pub(crate) fn cases_at(dispatches: &[Row<Case>], place: u32) -> &[Case]
    ensures { result.now ≡ cases_of (slice_get dispatches.entry.now place) }
{
    match dispatches.get(place as usize) {
        Some(row) => row.as_slice(),
        None => &[],
    }
}

// Which of these procedures are in the set.
fn are_bound(
    alloc: Global,
    set: &ProcedureSet,
    procedures: &[Option<u16>],
) -> Result<Row<bool>, NoMemory>
    requires { IsSet set.now }
    ensures { IfOk result (λ row. row ≡ map (is_bound (length set.now.marks) set.now.list) procedures.now) }
{
    let mut row = Row::new(alloc);
    for procedure in procedures {
        row.push(is_bound(set, *procedure))?;
    }
    Ok(row)
}

// Whether the procedure of a method is in the set.
fn is_bound(set: &ProcedureSet, procedure: Option<u16>) -> bool
    requires { IsSet set.now }
    ensures { result ≡ is_bound (length set.now.marks) set.now.list procedure }
{
    match procedure {
        Some(found) => set.has(found),
        None => false,
    }
}
