// The index.
ghost use Rattle.std.specs.Prelude.{◌≡◌, ◌<◌, ℕ, IfOk, MatchOption, None, OnOk, Some, length, slice_get};
ghost use Rattle.vg_core.specs.Tables as tables_of;
ghost use Rattle.vg_core.specs.Heap.{class_in};
ghost use Rattle.vg_reach_index.specs.Indexed.{cells_at, fields_at, finds, row_at, AreRows, Has, Indexes, KeepsCells, Sorts};

use crate::class_row;
use crate::class_row::ClassRow;
use std::alloc::Global;
use std::mem;
use vg_base::{NoMemory, Row};
use vg_core::Tables;
use vg_shape::{Store, lookup};

/// What is known of each class, and the cells of its own objects.
#[derive(Drop)]
pub struct Index {
    pub classes: Row<ClassRow>,
    pub cells: Row<Row<u32>>,
}

impl Index {
    /// The index of a program's tables and of a heap.
    pub fn new(alloc: Global, tables: &Tables, heap: &Store) -> Result<Self, NoMemory>
        ensures { IfOk result (Indexes tables.now heap.now) }
    {
        let Ok(count) = u16::try_from(tables.classes.len()) else {
            // No text has so many classes.
            return Err(NoMemory);
        };
        let classes = class_rows(alloc, tables, count)?;
        let cells = cell_rows(alloc, heap, count)?;
        Ok(Index { classes, cells })
    }

    /// Whether a class is another one or below it.
    pub fn is_below(&self, tables: &Tables, class: u16, above: u16) -> bool
        requires { AreRows tables.now self.now.classes }
        ensures { result ≡ tables_of.is_below tables.now class above }
    {
        match self.classes.as_slice().get(usize::from(class)) {
            Some(row) => class_row::is_below(row.below.as_slice(), tables, class, above),
            None => lookup::is_below(tables, class, above),
        }
    }

    // The method that objects of a class have for a selector.
    fn dispatch(&self, tables: &Tables, class: u16, selector: u16) -> Option<u16>
        requires { AreRows tables.now self.now.classes }
        ensures { result ≡ tables_of.dispatch tables.now class selector }
    {
        match self.classes.as_slice().get(usize::from(class)) {
            Some(row) => class_row::dispatch(row.methods.as_slice(), tables, class, selector),
            None => lookup::dispatch(tables, class, selector),
        }
    }

    /// The method that an object of a class finds for a selector on a static class, where it is of that one or below it.
    pub fn finds(&self, tables: &Tables, class: u16, above: u16, selector: u16) -> Option<u16>
        requires { AreRows tables.now self.now.classes }
        ensures { result ≡ finds tables.now class above selector }
    {
        if self.is_below(tables, class, above) {
            self.dispatch(tables, class, selector)
        } else {
            None
        }
    }

    /// The fields that objects of a class have.
    pub fn fields(&self, class: u16) -> Option<&[u32]>
        ensures { MatchOption result (slice_get self.entry.now.classes class ≡ None) (λ found. found.now ≡ fields_at self.entry.now class) }
    {
        match self.classes.as_slice().get(usize::from(class)) {
            Some(row) => Some(row.fields.as_slice()),
            None => None,
        }
    }

    /// The cells of the objects of a class.
    pub fn cells(&self, class: u16) -> Option<&[u32]>
        ensures { MatchOption result (slice_get self.entry.now.cells class ≡ None) (λ found. found.now ≡ cells_at self.entry.now class) }
    {
        match self.cells.as_slice().get(usize::from(class)) {
            Some(row) => Some(row.as_slice()),
            None => None,
        }
    }
}

// What is known of the classes below this number.
fn class_rows(alloc: Global, tables: &Tables, count: u16) -> Result<Row<ClassRow>, NoMemory>
    ensures rows { IfOk result (AreRows tables.now) }
    ensures count { IfOk result (λ rows. length rows ≡ count) }
{
    let mut rows = Row::new(alloc);
    for class in 0..count {
        rows.push(ClassRow::new(alloc, tables, class)?)?;
    }
    Ok(rows)
}

// The cells of the objects of the classes below this number.
fn cell_rows(alloc: Global, heap: &Store, count: u16) -> Result<Row<Row<u32>>, NoMemory>
    ensures { IfOk result (λ rows. (k d : ℕ) → class_in (slice_get heap.now.cells k) ≡ Some d → d < count → Has (row_at rows d) k) }
{
    let Ok(cells) = u32::try_from(heap.count()) else {
        // No heap has so many cells.
        return Err(NoMemory);
    };
    let mut rows = no_cells(alloc, count)?;
    for cell in 0..cells {
        sort_cell(alloc, heap, &mut rows, cell)?;
    }
    Ok(Row::from_vec(rows))
}

// Puts a cell into the row of its class, where it is an object.
fn sort_cell(
    alloc: Global,
    heap: &Store,
    rows: &mut Vec<Row<u32>>,
    cell: u32,
) -> Result<(), NoMemory>
    ensures { OnOk result (Sorts heap.now rows.old.items rows.new.items cell) }
{
    match heap.class_of(cell) {
        Some(class) => put_cell(alloc, rows, class, cell),
        None => Ok(()),
    }
}

// So many rows without a cell.
fn no_cells(alloc: Global, count: u16) -> Result<Vec<Row<u32>>, NoMemory>
    ensures { IfOk result (λ rows. length rows.items ≡ count) }
{
    let mut rows = Vec::new(alloc);
    for _class in 0..count {
        rows.push(Row::new(alloc))?;
    }
    Ok(rows)
}

// Puts a cell into the row of its class, where that is there.
fn put_cell(alloc: Global, rows: &mut Vec<Row<u32>>, class: u16, cell: u32) -> Result<(), NoMemory>
    ensures { OnOk result (KeepsCells rows.old.items rows.new.items class cell) }
{
    let place = usize::from(class);
    if place < rows.len() {
        let mut row = mem::replace(&mut rows[place], Row::new(alloc));
        row.push(cell)?;
        rows[place] = row;
    }
    Ok(())
}
