// How many elements stand before those of an array.
ghost use Rattle.std.specs.Prelude.{◌≡◌, ◌≤◌, ◌+◌, ◌<◌, IfOk, get_or, length, map, slice_set};
ghost use Rattle.vg_core.specs.Heap.{kind_of};
ghost use Rattle.vg_number.specs.Numbering as numbering;
ghost use Rattle.vg_number.specs.Numbering.{AreListed};
ghost use Rattle.vg_place.specs.Counting.{elements_in};
ghost use Rattle.vg_plan_columns.specs.Starts.{size_noted, start_noted, HasSize, HasStarts};

use std::alloc::Global;
use vg_base::{NoMemory, Row};
use vg_core::{Cell, Tables};
use vg_live::Reason;
use vg_number::is_kept;

/// Of each cell, how many elements stand in the column of its type before those of the array in it; of an object 0.
///
/// All arrays together have at most 60,000 elements.
pub fn starts(
    alloc: Global,
    tables: &Tables,
    cells: &[Cell],
    live: &[Option<Reason>],
) -> Result<Row<u16>, NoMemory>
    requires listed { AreListed tables.now (map kind_of cells.now) }
    requires small { elements_in (map kind_of cells.now) ≤ 60000 }
    ensures { IfOk result (HasStarts (map kind_of cells.now) (numbering.has_reason live.now) (length cells.now)) }
{
    let mut starts = Row::new(alloc);
    let mut sizes = Vec::from_elem(alloc, 0u16, tables.types.len())?;
    for index in 0..cells.len() {
        let start = start_of(&sizes, &cells[index]);
        starts.push(start)?;
        note(&mut sizes, &cells[index], is_kept(live, index));
    }
    Ok(starts)
}

// The elements that were counted for the type of an array.
fn start_of(sizes: &Vec<u16>, cell: &Cell) -> u16
    ensures { result ≡ start_noted (kind_of cell.now) sizes.now.items }
{
    match cell {
        Cell::Object(_, _) => 0,
        Cell::Array(element, _) => match sizes.as_slice().get(*element as usize) {
            Some(size) => *size,
            None => 0,
        },
    }
}

// Counts the elements of a cell, where it is a kept array.
fn note(sizes: &mut Vec<u16>, cell: &Cell, kept: bool)
    requires { HasSize kept (kind_of cell.now) sizes.old.items }
    ensures { sizes.new.items ≡ size_noted kept (kind_of cell.now) sizes.old.items }
{
    if !kept {
        return;
    }
    match cell {
        Cell::Object(_, _) => {}
        Cell::Array(element, items) => raise(sizes, *element as usize, items.len() as u16),
    }
}

// Raises the number at a place.
fn raise(sizes: &mut Vec<u16>, place: usize, by: u16)
    requires within { place < length sizes.old.items }
    requires below { get_or sizes.old.items place 0 + by < 65536 }
    ensures { sizes.new.items ≡ slice_set sizes.old.items place (get_or sizes.old.items place 0 + by) }
{
    sizes[place] += by;
}
