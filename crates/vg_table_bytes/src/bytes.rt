// The bytes of tables.
ghost use Rattle.std.specs.Prelude.{◌≡◌, ◌++◌, IfOk, OnOk, slice_get};
ghost use Rattle.vg_table_bytes.specs.Bytes.{arrays_bytes, column_bytes, columns_bytes, entries_bytes, ram_widths, rows_bytes, table_bytes_of, width_in};

use std::alloc::Global;
use vg_base::{NoMemory, Row};
use vg_firm::{ArrayPlace, Home};
use vg_packed::FirmProgram;
use vg_placement::Column;
use vg_tables::{Datum, Entry, put_array, put_entry};

/// The bytes of all tables, one behind another: the initial copy of the columns in RAM, and then the table of each array type.
///
/// The byte of a delegate's code number names the procedure, since the place of its code is not known yet.
pub fn tables(
    alloc: Global,
    program: &FirmProgram,
    columns: &[Column],
) -> Result<Row<Datum>, NoMemory>
    ensures { IfOk result (λ bytes. bytes ≡ table_bytes_of (ram_widths columns.now) program.now.columns program.now.tables) }
{
    let widths = widths(alloc, columns)?;
    let mut bytes = Row::new(alloc);
    put_columns(&mut bytes, widths.as_slice(), program.columns.as_slice())?;
    put_rows(&mut bytes, program.tables.as_slice())?;
    Ok(bytes)
}

// The widths of the columns in RAM.
fn widths(alloc: Global, columns: &[Column]) -> Result<Row<u8>, NoMemory>
    ensures { IfOk result (λ row. row ≡ ram_widths columns.now) }
{
    let mut row = Row::new(alloc);
    for column in columns {
        push_width(&mut row, column.home, column.width)?;
    }
    Ok(row)
}

// Puts a width behind others, where the column stands in RAM.
fn push_width(row: &mut Row<u8>, home: Home, width: u8) -> Result<(), NoMemory>
    ensures { OnOk result (row.new ≡ row.old ++ width_in home width) }
{
    match home {
        Home::Ram => row.push(width),
        Home::Flash => Ok(()),
    }
}

// Puts the bytes of columns of these widths behind others.
fn put_columns(
    bytes: &mut Row<Datum>,
    widths: &[u8],
    columns: &[Row<Entry>],
) -> Result<(), NoMemory>
    ensures { OnOk result (bytes.new ≡ bytes.old ++ columns_bytes widths.now 0 columns.now) }
{
    for index in 0..columns.len() {
        put_column(bytes, widths, index, columns[index].as_slice())?;
    }
    Ok(())
}

// Puts the bytes of the column at this place behind others; none, where no column stands there.
fn put_column(
    bytes: &mut Row<Datum>,
    widths: &[u8],
    place: usize,
    entries: &[Entry],
) -> Result<(), NoMemory>
    ensures { OnOk result (bytes.new ≡ bytes.old ++ column_bytes (slice_get widths.now place) entries.now) }
{
    match width_at(widths, place) {
        Some(width) => put_entries(bytes, width, entries),
        None => Ok(()),
    }
}

// The width at a place, where there is one.
fn width_at(widths: &[u8], place: usize) -> Option<u8>
    ensures { result ≡ slice_get widths.now place }
{
    widths.get(place).copied()
}

// Puts the bytes of entries of this width behind others.
fn put_entries(bytes: &mut Row<Datum>, width: u8, entries: &[Entry]) -> Result<(), NoMemory>
    ensures { OnOk result (bytes.new ≡ bytes.old ++ entries_bytes width entries.now) }
{
    for entry in entries {
        put_entry(bytes, width, *entry)?;
    }
    Ok(())
}

// Puts the bytes of all tables of arrays behind others.
fn put_rows(bytes: &mut Row<Datum>, rows: &[Row<ArrayPlace>]) -> Result<(), NoMemory>
    ensures { OnOk result (bytes.new ≡ bytes.old ++ rows_bytes rows.now) }
{
    for row in rows {
        put_arrays(bytes, row.as_slice())?;
    }
    Ok(())
}

// Puts the bytes of a table behind others.
fn put_arrays(bytes: &mut Row<Datum>, places: &[ArrayPlace]) -> Result<(), NoMemory>
    ensures { OnOk result (bytes.new ≡ bytes.old ++ arrays_bytes places.now) }
{
    for place in places {
        put_array(bytes, *place)?;
    }
    Ok(())
}
