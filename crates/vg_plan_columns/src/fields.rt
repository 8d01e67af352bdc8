// The columns of fields.
ghost use Rattle.std.specs.Prelude.{◌≡◌, ◌<◌, IfOk, None, Some, length, replicate, slice_set};
ghost use Rattle.vg_plan_columns.specs.Fields.{field_noted, fields_from};

use crate::next::{column_at, flash_next, place_in, ram_next};
use std::alloc::Global;
use vg_base::{NoMemory, Row};
use vg_firm::Home;
use vg_pack_code::ColumnPlace;
use vg_placement::{Column, Held};

/// Of each of so many fields its column, where one holds it: its home, and its place among the columns of this home.
pub fn field_places(
    alloc: Global,
    fields: usize,
    columns: &[Column],
) -> Result<Row<Option<ColumnPlace>>, NoMemory>
    requires { length columns.now < 65536 }
    ensures { IfOk result (λ row. row ≡ fields_from 0 0 columns.now (replicate fields None)) }
{
    let mut places = Vec::from_elem(alloc, None, fields)?;
    let mut ram = 0u16;
    let mut flash = 0u16;
    for index in 0..columns.len() {
        let column = column_at(columns, index);
        note(
            &mut places,
            column.what,
            column.home,
            place_in(column.home, ram, flash),
        );
        ram = ram_next(column.home, ram);
        flash = flash_next(column.home, flash);
    }
    Ok(Row::from_vec(places))
}

// Notes the column of a field.
fn note(places: &mut Vec<Option<ColumnPlace>>, what: Held, home: Home, column: u16)
    ensures { places.new.items ≡ field_noted what home column places.old.items }
{
    match what {
        Held::Field(field) => put(places, field as usize, ColumnPlace { home, column }),
        Held::Initial => {}
        Held::Elements(_) => {}
        Held::Table(_) => {}
    }
}

// A column at a place that is there.
fn put(places: &mut Vec<Option<ColumnPlace>>, field: usize, place: ColumnPlace)
    ensures { places.new.items ≡ slice_set places.old.items field (Some place) }
{
    if field < places.len() {
        places[field] = Some(place);
    }
}
