// The columns of elements, and the tables of arrays.
ghost use Rattle.std.specs.Prelude.{◌≡◌, ◌≤◌, IfOk, get_or, length, map};
ghost use Rattle.vg_place.specs.Counting.{item_by, item_columns_by, table_by, width_at};

use crate::fields::{column_width, home_of_values, push_unless_empty};
use std::alloc::Global;
use vg_base::{NoMemory, Row};
use vg_core::CoreType;
use vg_firm::Home;
use vg_placement::{Column, Held};

// The bytes of an element of the type of this number.
fn item_width(types: &[CoreType], element: u32) -> u8
    ensures { result ≡ width_at types.now element }
{
    match types.get(element as usize) {
        Some(type_) => column_width(*type_),
        None => 0,
    }
}

// The number at a place, 0 where there is none.
fn number_at(numbers: &[u16], place: u32) -> u16
    ensures { result ≡ get_or numbers.now place 0 }
{
    match numbers.get(place as usize) {
        Some(number) => *number,
        None => 0,
    }
}

// The column of the elements of a type, not yet placed.
fn item_column(types: &[CoreType], sizes: &[u16], element: u32) -> Column
    ensures { result ≡ item_by types.now sizes.now element }
{
    Column {
        what: Held::Elements(element),
        home: home_of_values(),
        at: 0,
        width: item_width(types, element),
        count: number_at(sizes, element),
    }
}

/// The columns of the elements of these types, each with as many values as its arrays have elements.
pub fn item_columns(
    alloc: Global,
    types: &[CoreType],
    sizes: &[u16],
    order: &[u32],
) -> Result<Row<Column>, NoMemory>
    ensures columns { IfOk result (λ rows. rows ≡ item_columns_by types.now sizes.now order.now) }
    ensures length { IfOk result (λ rows. length rows ≤ length order.now) }
{
    let mut rows = Row::new(alloc);
    for element in order {
        push_unless_empty(&mut rows, item_column(types, sizes, *element))?;
    }
    Ok(rows)
}

/// The tables of the arrays of these types, with four bytes for each array.
pub fn table_columns(alloc: Global, counts: &[u16], order: &[u32]) -> Result<Row<Column>, NoMemory>
    ensures { IfOk result (λ rows. rows ≡ map (table_by counts.now) order.now) }
{
    let mut rows = Row::new(alloc);
    for element in order {
        rows.push(Column {
            what: Held::Table(*element),
            home: Home::Flash,
            at: 0,
            width: 4,
            count: number_at(counts, *element),
        })?;
    }
    Ok(rows)
}
