// The plan.
ghost use Rattle.std.specs.Prelude.{◌<◌, ◌≤◌, ◌≡◌, ◌^◌, IfOk, length, map};
ghost use Rattle.vg_core.specs.HeldProgram.{program_at};
ghost use Rattle.vg_core.specs.Heap.{kind_of};
ghost use Rattle.vg_number.specs.Numbering.{kinds_of, AreFew, AreListed};
ghost use Rattle.vg_numbers.specs.Numbers.{AreChains};
ghost use Rattle.vg_place.specs.Counting.{elements_in};
ghost use Rattle.vg_plan.specs.Planned.{tables_alone, HasTables, Plans};

use crate::own::own_objects;
use std::alloc::Global;
use vg_base::{NoMemory, Row};
use vg_codes::Case;
use vg_core::{Cell, Program, Step, Tables};
use vg_live::LiveSet;
use vg_number::Numbers;
use vg_pack_calls::{asked_by, dispatches, live_steps, procedure_numbers, receivers};
use vg_pack_code::{Asked, Plan};
use vg_placement::Column;
use vg_plan_columns::{field_places, item_places, starts};
use vg_plan_uses::{bindable, edges};
use vg_shape::Store;

/// A plan, and the dispatches that calls go by.
#[derive(Drop)]
pub struct Planned {
    pub plan: Plan,
    pub dispatches: Row<Row<Case>>,
}

/// The plan of the packed program, by what is live, by the numbers of the live cells, and by the columns.
pub fn plan(
    alloc: Global,
    program: &Program,
    heap: &Store,
    live: &LiveSet,
    numbers: &Numbers,
    columns: &[Column],
) -> Result<Planned, NoMemory>
    requires chains { AreChains program.now.tables }
    requires listed { AreListed program.now.tables (kinds_of heap.now) }
    requires few { AreFew (kinds_of heap.now) }
    requires small { elements_in (kinds_of heap.now) ≤ 60000 }
    requires classes { length program.now.tables.classes < 65536 }
    requires methods { length program.now.tables.methods < 65536 }
    requires live { length live.now.methods < 65536 }
    requires fields { length program.now.tables.fields < 2 ^ 32 }
    requires columns { length columns.now < 65536 }
    ensures plans { IfOk result (Plans (program_at program.now) heap.now live.now numbers.now columns.now) }
    ensures asked { IfOk result (λ planned. length planned.plan.asked < 4294967296) }
{
    let tables = &program.tables;
    let methods = live.methods.as_slice();
    let own = own_objects(alloc, tables, heap.cells(), live.cells.as_slice())?;
    let steps = live_steps(alloc, program, methods)?;
    let mut plan = of_tables(alloc, tables, heap.cells(), live, columns, steps.as_slice())?;
    let dispatches = dispatches(alloc, tables, numbers, &plan, own.as_slice())?;
    let room = tables.methods.len();
    let rows = dispatches.as_slice();
    let bound = bindable(
        alloc,
        tables,
        heap,
        live,
        &plan,
        rows,
        room,
        steps.as_slice(),
    )?;
    plan.receives = receivers(alloc, tables.methods.as_slice(), bound.as_slice())?;
    plan.bindable = bound;
    plan.edges = edges(alloc, program, methods, &plan, rows, room)?;
    Ok(Planned { plan, dispatches })
}

// The plan but for what delegates and calls need.
fn of_tables(
    alloc: Global,
    tables: &Tables,
    cells: &[Cell],
    live: &LiveSet,
    columns: &[Column],
    steps: &[Step],
) -> Result<Plan, NoMemory>
    requires listed { AreListed tables.now (map kind_of cells.now) }
    requires small { elements_in (map kind_of cells.now) ≤ 60000 }
    requires live { length live.now.methods < 65536 }
    requires columns { length columns.now < 65536 }
    ensures tables { IfOk result (HasTables tables.now (map kind_of cells.now) live.now columns.now steps.now) }
    ensures alone { IfOk result (λ plan. plan ≡ tables_alone plan) }
    ensures asked { IfOk result (λ plan. length plan.asked < 4294967296) }
{
    let procedures = procedure_numbers(alloc, live.methods.as_slice())?;
    let fields = field_places(alloc, tables.fields.len(), columns)?;
    let items = item_places(alloc, tables.types.as_slice(), columns)?;
    let starts = starts(alloc, tables, cells, live.cells.as_slice())?;
    let asked = countable(asked_by(alloc, steps)?)?;
    Ok(Plan {
        procedures,
        bindable: Row::new(alloc),
        receives: Row::new(alloc),
        columns: fields,
        items,
        starts,
        asked,
        edges: Row::new(alloc),
    })
}

// What is asked for, where four bytes count it. The error is want of memory.
fn countable(asked: Row<Asked>) -> Result<Row<Asked>, NoMemory>
    ensures same { IfOk result (λ rows. rows ≡ asked) }
    ensures few { IfOk result (λ rows. length rows < 4294967296) }
{
    if asked.len() < 4294967296 {
        return Ok(asked);
    }
    Err(NoMemory)
}
