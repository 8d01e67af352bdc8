// The tables of arrays.
ghost use Rattle.std.specs.Prelude.{◌≡◌, ◌++◌, [], List, IfOk, OnOk, get_or, length, map, replicate, slice_get};
ghost use Rattle.vg_core.specs.Heap.{kind_of};
ghost use Rattle.vg_firm.specs.Meaning.{arrays_of};
ghost use Rattle.vg_number.specs.Numbering as numbering;
ghost use Rattle.vg_pack_code.specs.Plans.{items_in};
ghost use Rattle.vg_plan_columns.specs.Arrays.{array_noted, place_at, put_at, table_in, tables_of, AreRows, Fit, FitsIn, FitsPlace};
ghost use Rattle.vg_plan_columns.specs.Starts.{HasStarts};

use std::alloc::Global;
use vg_base::{NoMemory, Row};
use vg_core::Cell;
use vg_firm::{ArrayPlace, Elements};
use vg_live::Reason;
use vg_number::is_kept;
use vg_placement::{Column, Held};

/// For each table of these columns, in their order: where the kept arrays of its type stand, in order of the cells.
///
/// Each of the arrays has at most 65,535 elements.
pub fn array_tables(
    alloc: Global,
    columns: &[Column],
    cells: &[Cell],
    live: &[Option<Reason>],
    items: &[Elements],
    starts: &[u16],
) -> Result<Row<Row<ArrayPlace>>, NoMemory>
    requires starts { HasStarts (map kind_of cells.now) (numbering.has_reason live.now) (length cells.now) starts.now }
    requires fit { Fit (map kind_of cells.now) (numbering.has_reason live.now) items.now }
    ensures { IfOk result (λ tables. (rows : List (List ArrayPlace)) × AreRows (map kind_of cells.now) (numbering.has_reason live.now) items.now (length cells.now) rows
        × (tables ≡ tables_of rows columns.now)) }
{
    let rows = rows_of(alloc, cells, live, items, starts)?;
    let mut tables = Row::new(alloc);
    for column in columns {
        push_table(alloc, &mut tables, column.what, rows.as_slice())?;
    }
    Ok(tables)
}

// For each type, where its kept arrays stand.
fn rows_of(
    alloc: Global,
    cells: &[Cell],
    live: &[Option<Reason>],
    items: &[Elements],
    starts: &[u16],
) -> Result<Vec<Row<ArrayPlace>>, NoMemory>
    requires starts { HasStarts (map kind_of cells.now) (numbering.has_reason live.now) (length cells.now) starts.now }
    requires fit { Fit (map kind_of cells.now) (numbering.has_reason live.now) items.now }
    ensures { IfOk result (λ rows. AreRows (map kind_of cells.now) (numbering.has_reason live.now) items.now (length cells.now) rows.items) }
{
    let mut rows = no_rows(alloc, items.len())?;
    for index in 0..cells.len() {
        note(
            &mut rows,
            &cells[index],
            is_kept(live, index),
            items,
            start_in(starts, index),
        )?;
    }
    Ok(rows)
}

// So many empty rows.
fn no_rows(alloc: Global, count: usize) -> Result<Vec<Row<ArrayPlace>>, NoMemory>
    ensures { IfOk result (λ rows. rows.items ≡ replicate count []) }
{
    let mut rows = Vec::new(alloc);
    for _row in 0..count {
        rows.push(Row::new(alloc))?;
    }
    Ok(rows)
}

// How many elements stand before the array in a cell.
fn start_in(starts: &[u16], cell: usize) -> u16
    ensures { result ≡ get_or starts.now cell 0 }
{
    match starts.get(cell) {
        Some(start) => *start,
        None => 0,
    }
}

// Notes where the array in a cell stands, where it is kept.
fn note(
    rows: &mut Vec<Row<ArrayPlace>>,
    cell: &Cell,
    kept: bool,
    items: &[Elements],
    start: u16,
) -> Result<(), NoMemory>
    requires { FitsPlace items.now kept start (kind_of cell.now) }
    ensures { OnOk result (rows.new.items ≡ array_noted items.now kept start (kind_of cell.now) rows.old.items) }
{
    if !kept {
        return Ok(());
    }
    match cell {
        Cell::Object(_, _) => Ok(()),
        Cell::Array(element, values) => put(
            rows,
            *element as usize,
            place_in(items, *element, start, values.len() as u16),
        ),
    }
}

// Where an array of so many elements stands behind so many others of its type.
fn place_in(items: &[Elements], element: u32, start: u16, length: u16) -> ArrayPlace
    requires { FitsIn (items_in (slice_get items.now element)) start }
    ensures { result ≡ place_at (items_in (slice_get items.now element)) start length }
{
    match items.get(element as usize) {
        Some(found) => ArrayPlace {
            address: found.address + u16::from(found.width) * start,
            length,
        },
        None => ArrayPlace { address: 0, length },
    }
}

// Puts a place behind those of a row that is there.
fn put(rows: &mut Vec<Row<ArrayPlace>>, row: usize, place: ArrayPlace) -> Result<(), NoMemory>
    ensures { OnOk result (rows.new.items ≡ put_at row place rows.old.items) }
{
    if row < rows.len() {
        rows[row].push(place)?;
    }
    Ok(())
}

// Puts the table of a column behind others, where it is one.
fn push_table(
    alloc: Global,
    tables: &mut Row<Row<ArrayPlace>>,
    what: Held,
    rows: &[Row<ArrayPlace>],
) -> Result<(), NoMemory>
    ensures { OnOk result (tables.new ≡ tables.old ++ table_in what rows.now) }
{
    match what {
        Held::Table(element) => {
            let row = copied(alloc, rows, element)?;
            tables.push(row)
        }
        Held::Initial => Ok(()),
        Held::Field(_) => Ok(()),
        Held::Elements(_) => Ok(()),
    }
}

// A copy of the row of a type.
fn copied(
    alloc: Global,
    rows: &[Row<ArrayPlace>],
    element: u32,
) -> Result<Row<ArrayPlace>, NoMemory>
    ensures { IfOk result (λ row. row ≡ arrays_of (slice_get rows.now element)) }
{
    match rows.get(element as usize) {
        Some(row) => copy_of(alloc, row.as_slice()),
        None => Ok(Row::new(alloc)),
    }
}

// A copy of these places.
fn copy_of(alloc: Global, places: &[ArrayPlace]) -> Result<Row<ArrayPlace>, NoMemory>
    ensures { IfOk result (λ row. row ≡ places.now) }
{
    let mut row = Row::new(alloc);
    for place in places {
        row.push(*place)?;
    }
    Ok(row)
}
