// The areas of columns.
use crate::known::Known;
use crate::names::member_name;
use crate::types::put_array_type;
use std::alloc::Global;
use vg_base::{NoMemory, Row};
use vg_core::Member;
use vg_firm::Home;
use vg_layout::Area;
use vg_placement::{Column, Held};

/// The areas of the columns of what fits, those in RAM first. A column without bytes has none.
pub fn areas_of(alloc: Global, known: Known<'_>) -> Result<Row<Area>, NoMemory> {
    let mut areas = Row::new(alloc);
    put_areas(alloc, &mut areas, known, true)?;
    put_areas(alloc, &mut areas, known, false)?;
    Ok(areas)
}

fn put_areas(
    alloc: Global,
    areas: &mut Row<Area>,
    known: Known<'_>,
    is_ram: bool,
) -> Result<(), NoMemory> {
    for column in known.columns {
        let bytes = u32::from(column.width) * u32::from(column.count);
        if is_in_ram(column.home) == is_ram && bytes > 0 {
            areas.push(Area {
                is_ram,
                at: column.at,
                bytes,
                what: what_of(alloc, known, *column)?,
            })?;
        }
    }
    Ok(())
}

fn is_in_ram(home: Home) -> bool {
    match home {
        Home::Ram => true,
        Home::Flash => false,
    }
}

// What a column holds.
fn what_of(alloc: Global, known: Known<'_>, column: Column) -> Result<Row<u8>, NoMemory> {
    match column.what {
        Held::Initial => Row::from_slice(alloc, b"static"),
        Held::Field(field) => member_name(alloc, known, Member::Field(field)),
        Held::Elements(elements) => {
            let mut text = Row::new(alloc);
            put_array_type(alloc, &mut text, known, elements)?;
            Ok(text)
        }
        Held::Table(elements) => {
            let mut text = Row::from_slice(alloc, b"table ")?;
            put_array_type(alloc, &mut text, known, elements)?;
            Ok(text)
        }
    }
}
