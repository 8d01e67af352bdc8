// The bytes of tables.
use crate::packing::Whole;
use std::alloc::Global;
use vg_base::{NoMemory, Row};
use vg_firm::ArrayPlace;
use vg_firm_machine::{Memory, code_number};
use vg_placement::{Column, Held};
use vg_tables::Datum;

// Where RAM and the tables begin.
const RAM: usize = 0x0100;

const TABLES: usize = 0x008c;

/// How many bytes the tables have, and the bytes of each column in RAM and of each table behind a bar; those of a code number name the procedure.
pub fn bytes_text(alloc: Global, whole: &Whole) -> Result<String, NoMemory> {
    let bytes = whole.bytes.as_slice();
    let mut text = format!(in alloc; "{}:", bytes.len())?;
    let mut from = 0usize;
    let mut is_behind = false;
    for column in whole.fitted.placed.columns.list.as_slice() {
        if let Held::Initial = column.what {
            continue;
        }
        text.push_str(bar(is_behind))?;
        is_behind = true;
        let to = from.saturating_add(size_of(column.width, column.count));
        put_bytes(alloc, &mut text, bytes, from, to)?;
        from = to;
    }
    if from != bytes.len() {
        text.push_str(" | others")?;
    }
    Ok(text)
}

// What stands before a column: a bar, where one stands before it.
fn bar(is_behind: bool) -> &'static str {
    if is_behind { " |" } else { "" }
}

// The bytes of so many values.
fn size_of(width: u8, count: u16) -> usize {
    usize::from(width) * usize::from(count)
}

// Puts the bytes from one place to another.
fn put_bytes(
    alloc: Global,
    text: &mut String,
    bytes: &[Datum],
    from: usize,
    to: usize,
) -> Result<(), NoMemory> {
    for place in from..to {
        let part = match bytes.get(place).copied() {
            Some(Datum::Byte(byte)) => format!(in alloc; " {byte:02x}")?,
            Some(Datum::CodeLow(procedure)) => format!(in alloc; " lo-q{procedure}")?,
            Some(Datum::CodeHigh(procedure)) => format!(in alloc; " hi-q{procedure}")?,
            None => format!(in alloc; " none")?,
        };
        text.push_str(part.as_str())?;
    }
    Ok(())
}

/// The columns in RAM as they are read from the initial copy, by their addresses.
pub fn memory_of(alloc: Global, columns: &[Column], bytes: &[Datum]) -> Result<Memory, NoMemory> {
    let mut memory = Memory::new(alloc);
    for column in columns {
        match column.what {
            Held::Field(_) | Held::Elements(_) => read_column(&mut memory, *column, bytes)?,
            Held::Initial | Held::Table(_) => {}
        }
    }
    Ok(memory)
}

// Reads a column in RAM.
fn read_column(memory: &mut Memory, column: Column, bytes: &[Datum]) -> Result<(), NoMemory> {
    memory.begin()?;
    let start = usize::from(column.at).saturating_sub(RAM);
    for index in 0..column.count {
        let before = usize::from(index) * usize::from(column.width);
        memory.push(number_at(bytes, start.saturating_add(before), column.width))?;
    }
    Ok(())
}

/// The places and lengths of arrays as they are read from the tables, by their addresses.
pub fn arrays_of(
    alloc: Global,
    columns: &[Column],
    bytes: &[Datum],
) -> Result<Vec<Row<ArrayPlace>>, NoMemory> {
    let mut rows = Vec::new(alloc);
    for column in columns {
        if let Held::Table(_) = column.what {
            let row = read_table(alloc, *column, bytes)?;
            rows.push(row)?;
        }
    }
    Ok(rows)
}

// Reads a table.
fn read_table(alloc: Global, column: Column, bytes: &[Datum]) -> Result<Row<ArrayPlace>, NoMemory> {
    let mut row = Row::new(alloc);
    let start = usize::from(column.at).saturating_sub(TABLES);
    for index in 0..column.count {
        let at = start.saturating_add(usize::from(index) * 4);
        row.push(ArrayPlace {
            address: (number_at(bytes, at, 2) % 65_536) as u16,
            length: (number_at(bytes, at.saturating_add(2), 2) % 65_536) as u16,
        })?;
    }
    Ok(row)
}

// The number of so many bytes from a place on, the low ones first; a byte that is not there counts as 255.
fn number_at(bytes: &[Datum], from: usize, width: u8) -> u32 {
    let mut number = 0u32;
    for place in 0..width {
        let at = from.saturating_add(usize::from(width - 1 - place));
        let byte = match bytes.get(at) {
            Some(datum) => byte_of(*datum),
            None => 255,
        };
        number = number.wrapping_mul(256).wrapping_add(byte);
    }
    number
}

/// The byte that a datum stands for, where code numbers are those of the machine of packed programs.
pub fn byte_of(datum: Datum) -> u32 {
    match datum {
        Datum::Byte(byte) => u32::from(byte),
        Datum::CodeLow(procedure) => code_number(procedure) % 256,
        Datum::CodeHigh(procedure) => code_number(procedure) / 256 % 256,
    }
}
