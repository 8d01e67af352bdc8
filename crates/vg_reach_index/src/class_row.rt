// What is known of a class.
ghost use Rattle.std.specs.Prelude.{◌≡◌, ℕ, IfOk, None, OnOk, Option, Some, slice_get, true};
ghost use Rattle.vg_core.specs.Tables as tables_of;
ghost use Rattle.vg_core.specs.Tables.{find_selector, has_selector};
ghost use Rattle.vg_reach_index.specs.Indexed.{first_of, methods_at, Has, IsBelowRow, IsMethodRow, IsRow};

use std::alloc::Global;
use vg_base::{NoMemory, Row};
use vg_core::{Owner, Tables};
use vg_shape::lookup;

/// What is known of a class, each by number: whether it is a class or below it; the method that its objects have for a selector, and the
/// fields that they have. Where a row ends, it is looked up in the tables.
#[derive(Drop)]
pub struct ClassRow {
    pub below: Row<bool>,
    pub methods: Row<Option<u16>>,
    pub fields: Row<u32>,
}

impl ClassRow {
    /// What is known of the class of this number.
    pub fn new(alloc: Global, tables: &Tables, class: u16) -> Result<Self, NoMemory>
        ensures { IfOk result (IsRow tables.now class) }
    {
        let below = below_row(alloc, tables, class)?;
        let fields = field_row(alloc, tables, class, below.as_slice())?;
        let methods = method_row(alloc, tables, class)?;
        Ok(ClassRow {
            below,
            methods,
            fields,
        })
    }
}

/// Whether a class is another one or below it, by its row.
pub fn is_below(row: &[bool], tables: &Tables, class: u16, above: u16) -> bool
    requires { IsBelowRow tables.now class row.now }
    ensures { result ≡ tables_of.is_below tables.now class above }
{
    match row.get(usize::from(above)) {
        Some(known) => *known,
        None => lookup::is_below(tables, class, above),
    }
}

/// The method that objects of a class have for a selector, by its row.
pub fn dispatch(row: &[Option<u16>], tables: &Tables, class: u16, selector: u16) -> Option<u16>
    requires { IsMethodRow tables.now class row.now }
    ensures { result ≡ tables_of.dispatch tables.now class selector }
{
    match row.get(usize::from(selector)) {
        Some(known) => *known,
        None => lookup::dispatch(tables, class, selector),
    }
}

// Whether a class is below each class.
fn below_row(alloc: Global, tables: &Tables, class: u16) -> Result<Row<bool>, NoMemory>
    ensures { IfOk result (IsBelowRow tables.now class) }
{
    let count = u16::try_from(tables.classes.len()).unwrap_or(0);
    let mut row = Row::new(alloc);
    for above in 0..count {
        row.push(lookup::is_below(tables, class, above))?;
    }
    Ok(row)
}

// The methods of a class by their selectors.
fn method_row(alloc: Global, tables: &Tables, class: u16) -> Result<Row<Option<u16>>, NoMemory>
    ensures { IfOk result (IsMethodRow tables.now class) }
{
    match tables.classes.as_slice().get(usize::from(class)) {
        Some(found) => selected(alloc, tables, found.methods.as_slice()),
        None => Ok(Row::new(alloc)),
    }
}

// The first of these methods for each selector.
fn selected(alloc: Global, tables: &Tables, methods: &[u16]) -> Result<Row<Option<u16>>, NoMemory>
    ensures { IfOk result (λ row. (s : ℕ) (m : Option ℕ) → slice_get row s ≡ Some m → m ≡ find_selector tables.now methods.now s) }
{
    let mut row = Vec::from_elem(alloc, None, tables.methods.len())?;
    for method in methods {
        note(tables, &mut row, *method);
    }
    Ok(Row::from_vec(row))
}

// Notes a method for its selector, where none is noted.
fn note(tables: &Tables, row: &mut Vec<Option<u16>>, method: u16)
    ensures { row.new.items ≡ methods_at method (slice_get tables.now.methods method) row.old.items }
{
    match tables.methods.as_slice().get(usize::from(method)) {
        Some(found) => put_first(row, usize::from(found.selector), method),
        None => {}
    }
}

// A number at a place that is there and holds none.
fn put_first(row: &mut Vec<Option<u16>>, place: usize, number: u16)
    ensures { row.new.items ≡ first_of place number row.old.items }
{
    match row.as_slice().get(place) {
        Some(None) => row[place] = Some(number),
        Some(Some(_)) => {}
        None => {}
    }
}

// The fields that objects of a class have.
fn field_row(
    alloc: Global,
    tables: &Tables,
    class: u16,
    below: &[bool],
) -> Result<Row<u32>, NoMemory>
    requires { IsBelowRow tables.now class below.now }
    ensures { IfOk result (λ row. (f i : ℕ) → tables_of.slot_of tables.now class f ≡ Some i → Has row f) }
{
    let Ok(count) = u32::try_from(tables.fields.len()) else {
        // No text has so many fields.
        return Err(NoMemory);
    };
    let mut row = Row::new(alloc);
    for field in 0..count {
        if has_field(tables, class, below, field) {
            row.push(field)?;
        }
    }
    Ok(row)
}

// Whether objects of a class have a field.
fn has_field(tables: &Tables, class: u16, below: &[bool], field: u32) -> bool
    requires { IsBelowRow tables.now class below.now }
    ensures { (i : ℕ) → tables_of.slot_of tables.now class field ≡ Some i → result ≡ true }
{
    match tables.fields.as_slice().get(field as usize) {
        Some(found) => match found.owner {
            Owner::InClass(above) => is_below(below, tables, class, above),
            Owner::InComponent(_) => false,
        },
        None => false,
    }
}
