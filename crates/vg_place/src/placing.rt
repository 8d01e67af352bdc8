// The placement.
ghost use Rattle.std.specs.Prelude.{◌≡◌, ◌+◌, ◌≤◌, ◌<◌, ◌^◌, ◌++◌, ◌∷◌, IfOk, OnOk, length};
ghost use Rattle.vg_core.specs.Heap.{stored_values};
ghost use Rattle.vg_core.specs.HeldProgram.{program_at};
ghost use Rattle.vg_firm.specs.declared.step.Home.TheVariants as homes;
ghost use Rattle.vg_number.specs.Numbering.{kept_in, kinds_of, AreListed, IsNumbering};
ghost use Rattle.vg_placement.specs.Columns as columns;
ghost use Rattle.vg_placement.specs.Needs.{needs};
ghost use Rattle.vg_place.specs.Counting.{item_columns_by, needs_by, placed_one};
ghost use Rattle.vg_place.specs.Placing.{AreOwned, Places};

use crate::arrays::{Arrays, arrays_of};
use crate::elements::{item_columns, table_columns};
use crate::fields::{bytes_of, field_columns};
use crate::sums::{bytes_where, home_bytes};
use std::alloc::Global;
use vg_base::{NoMemory, Refusal, Row};
use vg_core::{Program, Tables};
use vg_firm::Home;
use vg_live::{LiveSet, Reason};
use vg_number::{Numbers, Span};
use vg_placement::{Column, Held};
use vg_shape::Store;

/// The columns in their order and at their addresses: the initial copy, those that hold values, and the tables of the arrays.
#[derive(Drop)]
pub struct Columns {
    pub list: Row<Column>,
    /// The bytes of the columns in RAM.
    pub static_bytes: u16,
    /// The bytes of those in flash.
    pub table_bytes: u16,
}

/// What does not fit.
#[derive(Clone, Copy, Debug, PartialEq, Eq)]
pub enum PlaceFault {
    /// The columns in RAM need more than its 4,096 bytes.
    StaticFull { need: u64 },
    /// The tables in flash need more than 60,000 bytes.
    TableFull { need: u64 },
}

/// The columns of the live fields and arrays, in order of the text, behind them the tables of the arrays, each at its address.
///
/// StaticFull comes exactly where the columns in RAM have more than 4,096 bytes, and else TableFull exactly where those in flash have
/// more than 60,000; each has the sum. The heap has at most 60,000 stored values.
pub fn place(
    alloc: Global,
    program: &Program,
    heap: &Store,
    live: &LiveSet,
    numbers: &Numbers,
) -> Result<Columns, Refusal<PlaceFault>>
    requires fields { length program.now.tables.fields < 2 ^ 32 }
    requires owners { AreOwned program.now.tables }
    requires listed { AreListed program.now.tables (kinds_of heap.now) }
    requires few { stored_values heap.now ≤ 60000 }
    requires numbers { IsNumbering program.now.tables (kinds_of heap.now) (kept_in live.now) numbers.now }
    ensures { Places (columns.all_columns program.now.tables (needs (program_at program.now) (kinds_of heap.now) live.now) (kinds_of heap.now)) result }
{
    let tables = &program.tables;
    let arrays = arrays_of(alloc, tables, heap.cells(), live.cells.as_slice())?;
    let values = value_columns(
        alloc,
        tables,
        live.fields.as_slice(),
        numbers.spans.as_slice(),
        &arrays,
    )?;
    let rows = table_columns(alloc, arrays.counts(), arrays.order())?;
    fitted(alloc, values.as_slice(), rows.as_slice())
}

// The columns of fields and of elements.
fn value_columns(
    alloc: Global,
    tables: &Tables,
    live: &[Option<Reason>],
    spans: &[Span],
    arrays: &Arrays,
) -> Result<Row<Column>, NoMemory>
    requires fields { length tables.now.fields < 2 ^ 32 }
    ensures columns { IfOk result (λ rows. rows ≡ columns.field_columns (needs_by live.now spans.now) 0 tables.now.fields
        ++ item_columns_by tables.now.types arrays.now.sizes arrays.now.order) }
    ensures length { IfOk result (λ rows. length rows ≤ length tables.now.fields + length arrays.now.order) }
{
    let mut values = field_columns(alloc, tables.fields.as_slice(), live, spans)?;
    let items = item_columns(
        alloc,
        tables.types.as_slice(),
        arrays.sizes(),
        arrays.order(),
    )?;
    append(&mut values, items.as_slice())?;
    Ok(values)
}

// Puts columns behind others.
fn append(rows: &mut Row<Column>, more: &[Column]) -> Result<(), NoMemory>
    ensures { OnOk result (rows.new ≡ rows.old ++ more.now) }
{
    for column in more {
        rows.push(*column)?;
    }
    Ok(())
}

// The columns of values and the tables behind them, at their addresses.
#[tactic(auto, using(crate::proofs::Glue::ram_of_all))]
fn fitted(alloc: Global, values: &[Column], rows: &[Column]) -> Result<Columns, Refusal<PlaceFault>>
    requires few { length values.now + length rows.now + 1 < 2 ^ 33 }
    requires flash { columns.home_bytes homes.Ram rows.now ≡ 0 }
    ensures { Places (columns.with_tables values.now rows.now) result }
{
    let static_bytes = home_bytes(values, Home::Ram);
    if static_bytes > 4096 {
        return Err(Refusal::Fault(PlaceFault::StaticFull { need: static_bytes }));
    }
    let all = all_columns(alloc, static_bytes as u16, values, rows)?;
    let table_bytes = home_bytes(all.as_slice(), Home::Flash);
    if table_bytes > 60000 {
        return Err(Refusal::Fault(PlaceFault::TableFull { need: table_bytes }));
    }
    let list = placed(alloc, all.as_slice())?;
    Ok(Columns {
        list,
        static_bytes: static_bytes as u16,
        table_bytes: table_bytes as u16,
    })
}

// The initial copy of so many bytes, columns of values, and tables.
fn all_columns(
    alloc: Global,
    copy: u16,
    values: &[Column],
    rows: &[Column],
) -> Result<Row<Column>, NoMemory>
    ensures { IfOk result (λ all. all ≡ columns.initial_copy copy ∷ values.now ++ rows.now) }
{
    let mut all = Row::new(alloc);
    all.push(Column {
        what: Held::Initial,
        home: Home::Flash,
        at: 0,
        width: 1,
        count: copy,
    })?;
    append(&mut all, values)?;
    append(&mut all, rows)?;
    Ok(all)
}

// The columns one behind another in their homes.
fn placed(alloc: Global, rows: &[Column]) -> Result<Row<Column>, NoMemory>
    requires fits { columns.home_bytes homes.Ram rows.now ≤ 4096 }
    requires tables_fit { columns.home_bytes homes.Flash rows.now ≤ 60000 }
    ensures { IfOk result (λ list. list ≡ columns.placed 0x0100 0x008C rows.now) }
{
    let mut list = Row::new(alloc);
    let mut ram = 0x0100u16;
    let mut flash = 0x008Cu16;
    for index in 0..rows.len() {
        let column = rows[index];
        let bytes = bytes_of(&column);
        list.push(placed_at(column, ram, flash))?;
        ram += bytes_where(Home::Ram, column.home, bytes) as u16;
        flash += bytes_where(Home::Flash, column.home, bytes) as u16;
    }
    Ok(list)
}

// A column at the address of its home.
fn placed_at(column: Column, ram: u16, flash: u16) -> Column
    ensures { result ≡ placed_one ram flash column }
{
    Column {
        what: column.what,
        home: column.home,
        at: match column.home {
            Home::Ram => ram,
            Home::Flash => flash,
        },
        width: column.width,
        count: column.count,
    }
}
