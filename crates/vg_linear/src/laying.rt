// Where columns and tables stand.
ghost use Rattle.std.specs.Prelude.{◌≡◌, ◌++◌, IfOk, OnOk};
ghost use Rattle.vg_started_bytes.specs.Started.{ram_places, table_addresses};
ghost use Rattle.vg_linear.specs.Laying.{layout_of, lone_array, lone_arrays};
ghost use Rattle.vg_linear.specs.Places.{address_if, place_if};
ghost use Rattle.vg_linear.specs.Widths.{AllHaveWidths};

use crate::passing::passings;
use std::alloc::Global;
use vg_base::{NoMemory, Row};
use vg_firm::{ArrayPlace, Home};
use vg_flatten_shapes::{Layout, Place};
use vg_packed::FirmProgram;
use vg_placement::{Column, Held};

/// The layout for linear code: the places of the columns in RAM, in their order, the addresses of the tables of arrays, the arrays of those that
/// have one, and how each procedure is called. An address in RAM is a data address, that of a table a byte address in flash. No column stands in flash.
pub fn layout(alloc: Global, columns: &[Column], firm: &FirmProgram) -> Result<Layout, NoMemory>
    requires { AllHaveWidths firm.now.procedures }
    ensures { IfOk result (λ layout. layout ≡ layout_of columns.now firm.now) }
{
    let ram = places(alloc, columns)?;
    let tables = addresses(alloc, columns)?;
    let lone_arrays = lone_arrays(alloc, firm.tables.as_slice())?;
    let passing = passings(alloc, firm.procedures.as_slice())?;
    Ok(Layout {
        ram,
        flash: Row::new(alloc),
        tables,
        lone_arrays,
        passing,
    })
}

// The places of those in RAM.
fn places(alloc: Global, columns: &[Column]) -> Result<Row<Place>, NoMemory>
    ensures { IfOk result (λ row. row ≡ ram_places columns.now) }
{
    let mut row = Row::new(alloc);
    for column in columns {
        let place = Place {
            address: column.at,
            width: column.width,
            count: column.count,
        };
        push_place(&mut row, column.home, place)?;
    }
    Ok(row)
}

fn push_place(row: &mut Row<Place>, home: Home, place: Place) -> Result<(), NoMemory>
    ensures { OnOk result (row.new ≡ row.old ++ place_if home place) }
{
    match home {
        Home::Ram => {
            row.push(place)?;
            Ok(())
        }
        Home::Flash => Ok(()),
    }
}

// The addresses of the tables.
fn addresses(alloc: Global, columns: &[Column]) -> Result<Row<u16>, NoMemory>
    ensures { IfOk result (λ row. row ≡ table_addresses columns.now) }
{
    let mut row = Row::new(alloc);
    for column in columns {
        push_address(&mut row, column.what, column.at)?;
    }
    Ok(row)
}

fn push_address(row: &mut Row<u16>, what: Held, address: u16) -> Result<(), NoMemory>
    ensures { OnOk result (row.new ≡ row.old ++ address_if what address) }
{
    match what {
        Held::Table(_) => {
            row.push(address)?;
            Ok(())
        }
        _ => Ok(()),
    }
}

// The arrays of the tables that have one.
fn lone_arrays(
    alloc: Global,
    tables: &[Row<ArrayPlace>],
) -> Result<Row<Option<ArrayPlace>>, NoMemory>
    ensures { IfOk result (λ row. row ≡ lone_arrays tables.now) }
{
    let mut row = Row::new(alloc);
    for table in tables {
        row.push(lone_array(table.as_slice()))?;
    }
    Ok(row)
}

fn lone_array(arrays: &[ArrayPlace]) -> Option<ArrayPlace>
    ensures { result ≡ lone_array arrays.now }
{
    match arrays {
        [array] => Some(*array),
        _ => None,
    }
}
