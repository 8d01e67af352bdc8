// Calls.
ghost use Rattle.std.specs.Prelude.{◌≡◌, ◌<◌, ◌&&◌, ◌==◌, [], IfOk, OnOk, if◌then◌else◌, length, slice_get};
ghost use Rattle.vg_core.specs.HeldProgram.{program_at};
ghost use Rattle.vg_live.specs.Sets.{flat};
ghost use Rattle.vg_live.specs.Uses as uses;
ghost use Rattle.vg_number.specs.Numbering.{has_reason};
ghost use Rattle.vg_pack_code.specs.Plans as plans;
ghost use Rattle.vg_plan_uses.specs.Calling as calling;
ghost use Rattle.vg_plan_uses.specs.Calling.{called, called_by, edges_from};
ghost use Rattle.vg_plan_uses.specs.Sets.{one_of, with_all, IsSet};

use crate::binding::{cases_at, step_at};
use crate::held::procedure_of;
use crate::set::ProcedureSet;
use std::alloc::Global;
use vg_base::{NoMemory, Row};
use vg_codes::Case;
use vg_core::{Method, Program, Step, Tables};
use vg_live::Reason;
use vg_number::is_kept;
use vg_pack_code::Plan;
use vg_uses::steps_of;

/// Of each live method the procedures that its own may call, each once, in order of the first step that may; none of any other.
///
/// Of the plan it sees the procedures, which of them delegates may be of, and what is asked for, with the dispatches for that. `room` is the
/// number of procedures.
pub fn edges(
    alloc: Global,
    program: &Program,
    live: &[Option<Reason>],
    plan: &Plan,
    dispatches: &[Row<Case>],
    room: usize,
) -> Result<Row<Row<u16>>, NoMemory>
    requires asked { length plan.now.asked < 4294967296 }
    requires methods { length program.now.tables.methods < 65536 }
    ensures { IfOk result (λ rows. rows ≡ edges_from (program_at program.now) plan.now dispatches.now room live.now 0 program.now.tables.methods) }
{
    let count = program.tables.methods.len();
    let mut rows = Row::new(alloc);
    for index in 0..count {
        let row = edges_if(
            alloc,
            program,
            is_kept(live, index),
            plan,
            dispatches,
            room,
            index as u16,
        )?;
        rows.push(row)?;
    }
    Ok(rows)
}

// What the procedure of a method may call, where it is live.
fn edges_if(
    alloc: Global,
    program: &Program,
    live: bool,
    plan: &Plan,
    dispatches: &[Row<Case>],
    room: usize,
    method: u16,
) -> Result<Row<u16>, NoMemory>
    requires asked { length plan.now.asked < 4294967296 }
    requires methods { length program.now.tables.methods < 65536 }
    ensures { IfOk result (λ row. row ≡ (if live then with_all room [] (called program.now.tables plan.now dispatches.now (uses.steps_of (program_at program.now) method)) else [])) }
{
    if !live {
        return Ok(Row::new(alloc));
    }
    let steps = steps_of(alloc, program, method)?;
    let mut set = ProcedureSet::new(alloc, room)?;
    note_steps(
        &mut set,
        &program.tables,
        plan,
        dispatches,
        steps.as_slice(),
    )?;
    Ok(set.into_list())
}

// Notes what these steps may call.
fn note_steps(
    set: &mut ProcedureSet,
    tables: &Tables,
    plan: &Plan,
    dispatches: &[Row<Case>],
    steps: &[Step],
) -> Result<(), NoMemory>
    requires set { IsSet set.old }
    requires asked { length plan.now.asked < 4294967296 }
    requires methods { length tables.now.methods < 65536 }
    ensures is { OnOk result (IsSet set.new) }
    ensures room { OnOk result (length set.new.marks ≡ length set.old.marks) }
    ensures list { OnOk result (set.new.list ≡ with_all (length set.old.marks) set.old.list (called tables.now plan.now dispatches.now steps.now)) }
{
    for index in 0..steps.len() {
        note_step(set, tables, plan, dispatches, step_at(steps, index))?;
    }
    Ok(())
}

// Notes what a step may call.
fn note_step(
    set: &mut ProcedureSet,
    tables: &Tables,
    plan: &Plan,
    dispatches: &[Row<Case>],
    step: Step,
) -> Result<(), NoMemory>
    requires set { IsSet set.old }
    requires asked { length plan.now.asked < 4294967296 }
    requires methods { length tables.now.methods < 65536 }
    ensures is { OnOk result (IsSet set.new) }
    ensures room { OnOk result (length set.new.marks ≡ length set.old.marks) }
    ensures list { OnOk result (set.new.list ≡ with_all (length set.old.marks) set.old.list (called_by tables.now plan.now dispatches.now step)) }
{
    match step {
        Step::CallComponent(method, _) => set.note_if(procedure_of(plan, method)),
        Step::CallMethod(_, class, selector, _) => {
            set.note_cases(cases_at(dispatches, plan.dispatch(class, selector)))
        }
        Step::CallValue(_, _, function) => {
            note_delegates(set, tables.methods.as_slice(), plan, function)
        }
        _ => Ok(()),
    }
}

// Notes the methods of this function type that delegates may be of.
fn note_delegates(
    set: &mut ProcedureSet,
    methods: &[Method],
    plan: &Plan,
    function: u32,
) -> Result<(), NoMemory>
    requires set { IsSet set.old }
    requires methods { length methods.now < 65536 }
    ensures is { OnOk result (IsSet set.new) }
    ensures room { OnOk result (length set.new.marks ≡ length set.old.marks) }
    ensures list { OnOk result (set.new.list ≡ with_all (length set.old.marks) set.old.list (calling.delegates plan.now function 0 methods.now)) }
{
    for index in 0..methods.len() {
        note_delegate(set, &methods[index], plan, function, index as u16)?;
    }
    Ok(())
}

// Notes a method, where it is of this function type and delegates may be of it.
fn note_delegate(
    set: &mut ProcedureSet,
    method: &Method,
    plan: &Plan,
    function: u32,
    number: u16,
) -> Result<(), NoMemory>
    requires { IsSet set.old }
    ensures is { OnOk result (IsSet set.new) }
    ensures room { OnOk result (length set.new.marks ≡ length set.old.marks) }
    ensures list { OnOk result (set.new.list ≡ with_all (length set.old.marks) set.old.list
        (if plans.holds (slice_get plan.now.bindable number) && (method.now.function == function) then one_of (flat (slice_get plan.now.procedures number)) else [])) }
{
    if is_bindable(plan, number) && method.function == function {
        set.note_if(procedure_of(plan, number))
    } else {
        Ok(())
    }
}

// Whether a delegate may be of a method.
fn is_bindable(plan: &Plan, method: u16) -> bool
    ensures { result ≡ plans.holds (slice_get plan.now.bindable method) }
{
    match plan.bindable.as_slice().get(usize::from(method)) {
        Some(found) => *found,
        None => false,
    }
}
