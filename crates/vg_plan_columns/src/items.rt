// The elements of arrays.
ghost use Rattle.std.specs.Prelude.{◌≡◌, ◌<◌, IfOk, length, map};
ghost use Rattle.vg_plan_columns.specs.Items.{item_noted, items_from, no_items, stood, tabled, tables_behind};

use crate::next::{column_at, flash_next, place_in, ram_next};
use std::alloc::Global;
use vg_base::{NoMemory, Row};
use vg_core::CoreType;
use vg_firm::{Elements, Home};
use vg_pack_code::{NO_COLUMN, NO_TABLE, width_of};
use vg_placement::{Column, Held};

/// Of each type, where the elements of its arrays stand, and which table has the places of these arrays.
pub fn item_places(
    alloc: Global,
    types: &[CoreType],
    columns: &[Column],
) -> Result<Row<Elements>, NoMemory>
    requires { length columns.now < 65536 }
    ensures { IfOk result (λ row. row ≡ items_from 0 0 0 columns.now (map no_items types.now)) }
{
    let mut items = without_columns(alloc, types)?;
    let mut ram = 0u16;
    let mut flash = 0u16;
    let mut tables = 0u16;
    for index in 0..columns.len() {
        let column = column_at(columns, index);
        note(
            &mut items,
            &column,
            place_in(column.home, ram, flash),
            tables,
        );
        ram = ram_next(column.home, ram);
        flash = flash_next(column.home, flash);
        tables = tables_next(column.what, tables);
    }
    Ok(Row::from_vec(items))
}

// The elements of these types, where none has a column or a table.
fn without_columns(alloc: Global, types: &[CoreType]) -> Result<Vec<Elements>, NoMemory>
    ensures { IfOk result (λ v. v.items ≡ map no_items types.now) }
{
    let mut items = Vec::new(alloc);
    for type_ in types {
        items.push(Elements {
            home: Home::Ram,
            column: NO_COLUMN,
            address: 0,
            table: NO_TABLE,
            width: width_of(*type_),
        })?;
    }
    Ok(items)
}

// How many tables stand behind a column.
fn tables_next(what: Held, tables: u16) -> u16
    requires { tables < 65535 }
    ensures { result ≡ tables_behind what tables }
{
    match what {
        Held::Table(_) => tables + 1,
        Held::Initial => tables,
        Held::Field(_) => tables,
        Held::Elements(_) => tables,
    }
}

// Notes what a column has of the arrays of a type.
fn note(items: &mut Vec<Elements>, column: &Column, place: u16, tables: u16)
    ensures { items.new.items ≡ item_noted column.now place tables items.old.items }
{
    match column.what {
        Held::Elements(element) => stand(items, element as usize, column.home, place, column.at),
        Held::Table(element) => put_table(items, element as usize, tables),
        Held::Initial => {}
        Held::Field(_) => {}
    }
}

// The elements of a type stand in this column.
fn stand(items: &mut Vec<Elements>, element: usize, home: Home, column: u16, address: u16)
    ensures { items.new.items ≡ stood element home column address items.old.items }
{
    if element < items.len() {
        let old = items[element];
        items[element] = Elements {
            home,
            column,
            address,
            table: old.table,
            width: old.width,
        };
    }
}

// The arrays of a type are in this table.
fn put_table(items: &mut Vec<Elements>, element: usize, table: u16)
    ensures { items.new.items ≡ tabled element table items.old.items }
{
    if element < items.len() {
        let old = items[element];
        items[element] = Elements {
            home: old.home,
            column: old.column,
            address: old.address,
            table,
            width: old.width,
        };
    }
}
