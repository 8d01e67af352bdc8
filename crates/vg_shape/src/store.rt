// The heap.
ghost use Rattle.std.specs.Prelude.{◌≡◌, ◌+◌, [], IfOk, IfSome, OnErr, OnOk, length, map, replicate, slice_get, slice_set};
ghost use Rattle.vg_core.specs.declared.heap.Cell.TheVariants.{Object, Array};
ghost use Rattle.vg_core.specs.Tables as tables_of;
ghost use Rattle.vg_core.specs.Heap.{class_in, item_in, size_of, value_at, set_at, stored_values, OfComponent, OfObject, with_field, with_item};
ghost use Rattle.vg_core.specs.declared.value.CoreValue.TheVariants.{Char};
ghost use Rattle.vg_core.specs.HeldProgram.{program_at};
ghost use Rattle.vg_core.specs.Meaning.{default_in, defaults};
ghost use Rattle.vg_core.specs.Session.{first_heap, literal_cell};
ghost use Rattle.vg_shape.specs.Cells.{array_length, cell_with_field, cell_with_item, heap_of, with_cell};

use crate::lookup::{field_type, global_slot, slot_of};
use std::alloc::Global;
use std::marker::Model;
use std::mem;
use vg_base::{NoMemory, Row};
use vg_core::{Cell, CoreValue, Heap, Program, Tables};
use vg_interp_values::default_of;

/// The heap of a run.
///
/// Contracts see the heap; the number of its stored values is kept beside it.
#[derive(Drop)]
pub struct Store {
    alloc: Global,
    cells: Vec<Cell>,
    globals: Vec<CoreValue>,
    stored: usize,
}

impl Model for Store {
    ghost use Rattle.std.specs.Prelude.{◌≡◌};
    ghost use Rattle.vg_core.specs.declared.heap.Heap.{Heap};
    ghost use Rattle.vg_core.specs.Heap.{stored_values};
    ghost use Rattle.vg_shape.specs.Cells.{heap_of};

    ghost Value = { Heap };

    ghost view = { λ s. heap_of s.cells.items s.globals.items };

    ghost invariant = { λ s. s.stored ≡ stored_values (heap_of s.cells.items s.globals.items) };
}

impl Store {
    /// The heap with no cell and no field of a component. It takes no memory.
    pub fn new(alloc: Global) -> Self
        ensures { result ≡ heap_of [] [] }
    {
        Store {
            alloc,
            cells: Vec::new(alloc),
            globals: Vec::new(alloc),
            stored: 0,
        }
    }

    /// The heap before initialisation: the literals in order of the text, and the defaults of the fields of components.
    pub fn first(alloc: Global, program: &Program) -> Result<Self, NoMemory>
        ensures { IfOk result (λ store. store ≡ first_heap (program_at program.now)) }
    {
        let tables = &program.tables;
        let mut store = Store::of_components(alloc, tables)?;
        for literal in tables.literals.as_slice() {
            store.add_literal(tables.char_type, literal.as_slice())?;
        }
        Ok(store)
    }

    // The heap with no cell, and with the defaults of the fields of components.
    fn of_components(alloc: Global, tables: &Tables) -> Result<Self, NoMemory>
        ensures { IfOk result (λ store. store ≡ heap_of [] (defaults tables.now tables.now.globals)) }
    {
        let globals = defaults_of(alloc, tables, tables.globals.as_slice())?;
        let stored = globals.len();
        Ok(Store {
            alloc,
            cells: Vec::new(alloc),
            globals,
            stored,
        })
    }

    // A new array of these chars.
    fn add_literal(&mut self, char_type: u32, bytes: &[u8]) -> Result<u32, NoMemory>
        ensures ok { OnOk result (self.new ≡ with_cell self.old (literal_cell char_type bytes.now)) }
        ensures err { OnErr result (self.new ≡ self.old) }
    {
        let values = chars_of(self.alloc, bytes)?;
        self.add(bytes.len(), Cell::Array(char_type, Row::from_vec(values)))
    }

    /// The heap by itself. It takes no memory.
    pub fn into_heap(self) -> Heap
        ensures { result ≡ self }
    {
        Heap {
            cells: Row::from_vec(self.cells),
            globals: Row::from_vec(self.globals),
        }
    }

    /// The number of its stored values.
    pub fn stored(&self) -> usize
        ensures { result ≡ stored_values self.now }
    {
        self.stored
    }

    /// Its cells.
    pub fn cells(&self) -> &[Cell]
        ensures { result.now ≡ self.now.cells }
    {
        self.cells.as_slice()
    }

    /// The number of its cells.
    pub fn count(&self) -> usize
        ensures { result ≡ length self.now.cells }
    {
        self.cells.len()
    }

    /// The class of the object in a cell.
    pub fn class_of(&self, k: u32) -> Option<u16>
        ensures { result ≡ class_in (slice_get self.now.cells k) }
    {
        match self.cells.get(k as usize) {
            Some(Cell::Object(class, _)) => Some(*class),
            Some(Cell::Array(_, _)) => None,
            None => None,
        }
    }

    /// The length of the array of elements of the type of this number in a cell.
    pub fn length_of(&self, t: u32, k: u32) -> Option<usize>
        ensures { result ≡ array_length t (slice_get self.now.cells k) }
    {
        match self.cells.get(k as usize) {
            Some(Cell::Array(u, values)) => { if *u == t { Some(values.len()) } else { None } }
            Some(Cell::Object(_, _)) => None,
            None => None,
        }
    }

    /// The value of a field of a component.
    pub fn component_field(&self, tables: &Tables, field: u32) -> Option<CoreValue>
        ensures { result ≡ value_at tables.now self.now (OfComponent field) }
    {
        match global_slot(tables, field) {
            Some(slot) => value_of(self.globals.as_slice(), slot),
            None => None,
        }
    }

    /// The value of a field of the object in a cell.
    pub fn field(&self, tables: &Tables, k: u32, field: u32) -> Option<CoreValue>
        ensures { result ≡ value_at tables.now self.now (OfObject k field) }
    {
        match self.cells.get(k as usize) {
            Some(Cell::Object(class, values)) => match slot_of(tables, *class, field) {
                Some(slot) => value_of(values.as_slice(), slot),
                None => None,
            },
            Some(Cell::Array(_, _)) => None,
            None => None,
        }
    }

    /// An element of the array in a cell.
    pub fn item(&self, k: u32, i: u32) -> Option<CoreValue>
        ensures { result ≡ item_in i (slice_get self.now.cells k) }
    {
        match self.cells.get(k as usize) {
            Some(Cell::Array(_, values)) => value_of(values.as_slice(), i),
            Some(Cell::Object(_, _)) => None,
            None => None,
        }
    }

    /// Another value in a field of a component, where it is there.
    pub fn set_component_field(&mut self, tables: &Tables, field: u32, value: CoreValue)
        ensures { self.new ≡ set_at tables.now (OfComponent field) value self.old }
    {
        match global_slot(tables, field) {
            Some(slot) => set_value(&mut self.globals, slot, value),
            None => {}
        }
    }

    /// Another value in a field of the object in a cell, where it has it.
    pub fn set_field(&mut self, tables: &Tables, k: u32, field: u32, value: CoreValue)
        ensures { self.new ≡ set_at tables.now (OfObject k field) value self.old }
    {
        set_field_at(self.alloc, tables, &mut self.cells, k, field, value);
    }

    /// Another element of the array in a cell, where it has it.
    pub fn set_item(&mut self, k: u32, i: u32, value: CoreValue)
        ensures { self.new ≡ heap_of (with_item i value (slice_get self.old.cells k) self.old.cells k) self.old.globals }
    {
        set_item_at(self.alloc, &mut self.cells, k, i, value);
    }

    /// A new object of a class, of the default values of these fields; the answer is its cell.
    ///
    /// The heap is as it was where there is no memory; 2^32 cells are no memory too.
    pub fn add_object(
        &mut self,
        tables: &Tables,
        class: u16,
        fields: &[u32],
    ) -> Result<u32, NoMemory>
        ensures ok { IfOk result (λ k. (k ≡ length self.old.cells) × (self.new ≡ with_cell self.old (Object class (defaults tables.now fields.now)))) }
        ensures err { OnErr result (self.new ≡ self.old) }
    {
        let values = defaults_of(self.alloc, tables, fields)?;
        self.add(fields.len(), Cell::Object(class, Row::from_vec(values)))
    }

    /// A new array of so many elements, all of this value, whose type has the number t; the answer is its cell.
    ///
    /// The heap is as it was where there is no memory; 2^32 cells are no memory too.
    pub fn add_array(&mut self, t: u32, size: usize, value: CoreValue) -> Result<u32, NoMemory>
        ensures ok { IfOk result (λ k. (k ≡ length self.old.cells) × (self.new ≡ with_cell self.old (Array t (replicate size value)))) }
        ensures err { OnErr result (self.new ≡ self.old) }
    {
        let values = Vec::from_elem(self.alloc, value, size)?;
        self.add(size, Cell::Array(t, Row::from_vec(values)))
    }

    // A new cell of so many values.
    fn add(&mut self, size: usize, cell: Cell) -> Result<u32, NoMemory>
        requires { size_of cell ≡ 1 + size }
        ensures ok { IfOk result (λ k. (k ≡ length self.old.cells) × (self.new ≡ with_cell self.old cell)) }
        ensures err { OnErr result (self.new ≡ self.old) }
    {
        let Ok(k) = u32::try_from(self.cells.len()) else {
            return Err(NoMemory);
        };
        let Some(stored) = sum_of(self.stored, size) else {
            return Err(NoMemory);
        };
        self.cells.push(cell)?;
        self.stored = stored;
        Ok(k)
    }
}

// So many stored values and a cell of so many more; there is no memory for 2^64.
fn sum_of(stored: usize, size: usize) -> Option<usize>
    ensures { IfSome result (λ n. n ≡ stored + (1 + size)) }
{
    match stored.checked_add(size) {
        Some(n) => n.checked_add(1),
        None => None,
    }
}

/// The defaults of these fields.
pub fn defaults_of(
    alloc: Global,
    tables: &Tables,
    fields: &[u32],
) -> Result<Vec<CoreValue>, NoMemory>
    ensures { IfOk result (λ v. v.items ≡ defaults tables.now fields.now) }
{
    let mut values = Vec::new(alloc);
    for field in fields {
        values.push(default_of_field(tables, *field))?;
    }
    Ok(values)
}

// The default of a field.
fn default_of_field(tables: &Tables, field: u32) -> CoreValue
    ensures { result ≡ default_in (tables_of.field_type tables.now field) }
{
    match field_type(tables, field) {
        Some(type_) => default_of(type_),
        None => CoreValue::Null,
    }
}

// Another value in a field of the object in a cell, where it has it.
fn set_field_at(
    alloc: Global,
    tables: &Tables,
    cells: &mut Vec<Cell>,
    k: u32,
    field: u32,
    value: CoreValue,
)
    ensures { cells.new.items ≡ with_field tables.now field value (slice_get cells.old.items k) cells.old.items k }
{
    let index = k as usize;
    if index < cells.len() {
        let cell = mem::replace(&mut cells[index], Cell::Object(0, Row::new(alloc)));
        cells[index] = with_value_of_field(tables, cell, field, value);
    }
}

// A cell with another value in a field, where it is an object that has it.
fn with_value_of_field(tables: &Tables, cell: Cell, field: u32, value: CoreValue) -> Cell
    ensures { result ≡ cell_with_field tables.now field value cell }
{
    match cell {
        Cell::Object(class, values) => match slot_of(tables, class, field) {
            Some(slot) => Cell::Object(class, row_with(values, slot, value)),
            None => Cell::Object(class, values),
        },
        Cell::Array(t, values) => Cell::Array(t, values),
    }
}

// Another element of the array in a cell, where it has it.
fn set_item_at(alloc: Global, cells: &mut Vec<Cell>, k: u32, i: u32, value: CoreValue)
    ensures { cells.new.items ≡ with_item i value (slice_get cells.old.items k) cells.old.items k }
{
    let index = k as usize;
    if index < cells.len() {
        let cell = mem::replace(&mut cells[index], Cell::Object(0, Row::new(alloc)));
        cells[index] = with_element(cell, i, value);
    }
}

// A cell with another element, where it is an array that has it.
fn with_element(cell: Cell, i: u32, value: CoreValue) -> Cell
    ensures { result ≡ cell_with_item i value cell }
{
    match cell {
        Cell::Object(class, values) => Cell::Object(class, values),
        Cell::Array(t, values) => Cell::Array(t, row_with(values, i, value)),
    }
}

// The row with another value at this place, where there is one. It takes no memory.
fn row_with(row: Row<CoreValue>, place: u32, value: CoreValue) -> Row<CoreValue>
    ensures { result ≡ slice_set row place value }
{
    let mut values = row.into_vec();
    set_value(&mut values, place, value);
    Row::from_vec(values)
}

// The value at this place.
fn value_of(values: &[CoreValue], place: u32) -> Option<CoreValue>
    ensures { result ≡ slice_get values.now place }
{
    values.get(place as usize).copied()
}

// Another value at this place, where there is one.
fn set_value(values: &mut Vec<CoreValue>, place: u32, value: CoreValue)
    ensures { values.new.items ≡ slice_set values.old.items place value }
{
    let index = place as usize;
    if index < values.len() {
        values[index] = value;
    }
}

// These bytes as chars.
fn chars_of(alloc: Global, bytes: &[u8]) -> Result<Vec<CoreValue>, NoMemory>
    ensures { IfOk result (λ v. v.items ≡ map Char bytes.now) }
{
    let mut values = Vec::new(alloc);
    for byte in bytes {
        values.push(CoreValue::Char(*byte))?;
    }
    Ok(values)
}
