// The packed program.
ghost use Rattle.std.specs.Prelude.{IfOk};
ghost use Rattle.vg_core.specs.HeldProgram.{program_at};
ghost use Rattle.vg_packed.specs.Given.{IsGiven};
ghost use Rattle.vg_packed.specs.Packed.{IsPackedFrom};
ghost use Rattle.vg_packed.specs.Ready.{IsReady};
ghost use Rattle.vg_packed_suits.specs.Bodies.{AreTypedWhereCounted};
ghost use Rattle.vg_pack.specs.Rows.{IsPackedWhole, RowsFitIn};
ghost use Rattle.vg_pack.specs.Same.{DoTheSame};

use crate::entrances::entrances;
use std::alloc::Global;
use vg_base::{NoMemory, Row};
use vg_core::Program;
use vg_live::LiveSet;
use vg_number::Numbers;
use vg_pack_bodies::procedures;
use vg_pack_values::first_columns;
use vg_packed::FirmProgram;
use vg_place::Columns;
use vg_plan::plan;
use vg_plan_columns::array_tables;
use vg_shape::Store;

/// The packed program of a typed one, with the heap that its constructors left: code over numbers of objects, columns of values and tables of
/// arrays, of what is live alone. It does what the program does, and the values of its columns and the places of its arrays fit into their bytes, where
/// constants and scalars are in their ranges, calls are short, and no live method makes anything. So all its procedures are typed for linear code, too, if the
/// code of the program's methods takes and leaves its values in order.
///
/// It refuses nothing but want of memory.
pub fn pack(
    alloc: Global,
    program: &Program,
    heap: &Store,
    live: &LiveSet,
    numbers: &Numbers,
    columns: &Columns,
) -> Result<FirmProgram, NoMemory>
    requires { IsGiven (program_at program.now) heap.now live.now numbers.now columns.now }
    ensures from { IfOk result (IsPackedFrom (program_at program.now) heap.now live.now numbers.now columns.now) }
    ensures rows { IfOk result (RowsFitIn (program_at program.now) heap.now columns.now) }
    ensures typed { IfOk result (AreTypedWhereCounted (program_at program.now) heap.now columns.now) }
    ensures same { IfOk result (λ f. IsReady (program_at program.now) heap.now → DoTheSame (program_at program.now) heap.now f) }
{
    by_plan(alloc, program, heap, live, numbers, columns)
}

// The packed program, by a plan.
fn by_plan(
    alloc: Global,
    program: &Program,
    heap: &Store,
    live: &LiveSet,
    numbers: &Numbers,
    columns: &Columns,
) -> Result<FirmProgram, NoMemory>
    requires { IsGiven (program_at program.now) heap.now live.now numbers.now columns.now }
    ensures { IfOk result (IsPackedWhole (program_at program.now) heap.now live.now numbers.now columns.now) }
{
    let list = columns.list.as_slice();
    let planned = plan(alloc, program, heap, live, numbers, list)?;
    let values = first_columns(alloc, &program.tables, heap, numbers, &planned.plan, list)?;
    let tables = array_tables(
        alloc,
        list,
        heap.cells(),
        live.cells.as_slice(),
        planned.plan.items.as_slice(),
        planned.plan.starts.as_slice(),
    )?;
    let procedures = procedures(alloc, program, numbers, &planned.plan)?;
    let handlers = entrances(alloc, &planned.plan, program.handlers.as_slice())?;
    let main = planned.plan.procedure(program.main);
    Ok(FirmProgram {
        columns: values,
        tables,
        procedures: Row::from_vec(procedures),
        dispatches: planned.dispatches,
        main,
        handlers,
    })
}
