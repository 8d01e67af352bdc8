// The columns of fields.
ghost use Rattle.std.specs.Prelude.{◌≡◌, ◌++◌, ◌≤◌, ◌<◌, ◌^◌, [], false, IfOk, OnOk, length};
ghost use Rattle.vg_placement.specs.Columns as columns;
ghost use Rattle.vg_placement.specs.Columns.{unless_empty};
ghost use Rattle.vg_place.specs.Counting.{count_in, needs_by, piece_of};

use std::alloc::Global;
use vg_base::{NoMemory, Row};
use vg_core::{CoreType, Field, Owner};
use vg_firm::Home;
use vg_live::Reason;
use vg_number::{Span, is_kept};
use vg_placement::{Column, Held};

/// The bytes of a value of a type in its column. In the plain layout a reference takes two.
pub fn column_width(type_: CoreType) -> u8
    ensures { result ≡ columns.column_width type_ }
{
    match type_ {
        CoreType::IntType => 4,
        CoreType::BoolType => 1,
        CoreType::CharType => 1,
        CoreType::RawType(bits) => ((u16::from(bits) + 7) / 8) as u8,
        CoreType::NullType => 2,
        CoreType::ClassType(_) => 2,
        CoreType::ArrayType(_) => 2,
        CoreType::FunctionType(_, _) => 4,
        CoreType::NoType => 0,
        CoreType::MoreTypes(_, _) => 0,
    }
}

/// Where a column of values stands: in the plain layout in RAM, whether a live method writes to it or not.
pub fn home_of_values() -> Home
    ensures { result ≡ columns.home_of false }
{
    Home::Ram
}

/// The bytes of a column, fewer than 2^24.
pub fn bytes_of(column: &Column) -> u32
    ensures bytes { result ≡ columns.bytes_of column.now }
    ensures few { result < 2 ^ 24 }
{
    u32::from(column.width) * u32::from(column.count)
}

/// Puts a column behind others, unless it has no bytes.
pub fn push_unless_empty(columns: &mut Row<Column>, column: Column) -> Result<(), NoMemory>
    ensures { OnOk result (columns.new ≡ columns.old ++ unless_empty column) }
{
    if bytes_of(&column) > 0 {
        columns.push(column)?;
    }
    Ok(())
}

// A field of a component has one value, that of a class one for each kept object of the class or below it.
fn owner_count(spans: &[Span], owner: Owner) -> u16
    ensures { result ≡ columns.owner_count (count_in spans.now) owner }
{
    match owner {
        Owner::InClass(class) => match spans.get(usize::from(class)) {
            Some(span) => span.count,
            None => 0,
        },
        Owner::InComponent(_) => 1,
    }
}

/// The columns of the live fields, in order of the text.
pub fn field_columns(
    alloc: Global,
    fields: &[Field],
    live: &[Option<Reason>],
    spans: &[Span],
) -> Result<Row<Column>, NoMemory>
    requires few { length fields.now < 2 ^ 32 }
    ensures columns { IfOk result (λ rows. rows ≡ columns.field_columns (needs_by live.now spans.now) 0 fields.now) }
    ensures length { IfOk result (λ rows. length rows ≤ length fields.now) }
{
    let mut rows = Row::new(alloc);
    for index in 0..fields.len() {
        push_if_live(
            &mut rows,
            &fields[index],
            index as u32,
            is_kept(live, index),
            spans,
        )?;
    }
    Ok(rows)
}

// Puts the column of a field behind others, where it is live.
fn push_if_live(
    rows: &mut Row<Column>,
    field: &Field,
    number: u32,
    live: bool,
    spans: &[Span],
) -> Result<(), NoMemory>
    ensures { OnOk result (rows.new ≡ rows.old ++ piece_of live (columns.field_column (needs_by [] spans.now) number field.now)) }
{
    if live {
        push_unless_empty(rows, field_column(field, number, spans))?;
    }
    Ok(())
}

// The column of a field, not yet placed.
fn field_column(field: &Field, number: u32, spans: &[Span]) -> Column
    ensures { result ≡ columns.field_column (needs_by [] spans.now) number field.now }
{
    Column {
        what: Held::Field(number),
        home: home_of_values(),
        at: 0,
        width: column_width(field.type_),
        count: owner_count(spans, field.owner),
    }
}
