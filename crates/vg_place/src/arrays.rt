// The arrays of each type.
ghost use Rattle.std.specs.Prelude.{◌≡◌, ◌<◌, ◌≤◌, [], IfOk, OnOk, get_or, length, map, replicate, true};
ghost use Rattle.vg_core.specs.Heap.{ArrayOf};
ghost use Rattle.vg_place.specs.Arrays as arrays;
ghost use Rattle.vg_core.specs.Heap.{kind_of};
ghost use Rattle.vg_number.specs.Numbering as numbering;
ghost use Rattle.vg_number.specs.Numbering.{AreListed, AreFew};
ghost use Rattle.vg_place.specs.Counting.{elements_in, noted, HasNoted, HasPlace};

use std::alloc::Global;
use std::marker::Model;
use vg_base::{NoMemory, Row};
use vg_core::{Cell, Tables};
use vg_live::Reason;
use vg_number::is_kept;

/// The types of the kept arrays, in order of the first array of each; of each type, how many elements and how many arrays there are.
#[derive(Drop)]
pub struct Arrays {
    order: Row<u32>,
    sizes: Vec<u16>,
    counts: Vec<u16>,
}

impl Model for Arrays {
    ghost use Rattle.vg_place.specs.Arrays.{Arrays, arrays};

    ghost Value = { Arrays };

    ghost view = { λ a. arrays a.order a.sizes.items a.counts.items };
}

impl Arrays {
    // No array of so many types.
    fn new(alloc: Global, types: usize) -> Result<Self, NoMemory>
        ensures { IfOk result (λ a. a ≡ arrays.arrays [] (replicate types 0) (replicate types 0)) }
    {
        Ok(Arrays {
            order: Row::new(alloc),
            sizes: Vec::from_elem(alloc, 0u16, types)?,
            counts: Vec::from_elem(alloc, 0u16, types)?,
        })
    }

    /// The types, in order of the first array of each.
    pub fn order(&self) -> &[u32]
        ensures { result.now ≡ self.now.order }
    {
        self.order.as_slice()
    }

    /// Of each type, the elements of its kept arrays.
    pub fn sizes(&self) -> &[u16]
        ensures { result.now ≡ self.now.sizes }
    {
        self.sizes.as_slice()
    }

    /// Of each type, how many kept arrays there are.
    pub fn counts(&self) -> &[u16]
        ensures { result.now ≡ self.now.counts }
    {
        self.counts.as_slice()
    }

    // Notes a cell, where it is a kept array.
    fn note(&mut self, cell: &Cell, kept: bool) -> Result<(), NoMemory>
        requires { HasPlace kept (kind_of cell.now) self.old }
        ensures { OnOk result (self.new ≡ noted kept (kind_of cell.now) self.old) }
    {
        if !kept {
            return Ok(());
        }
        match cell {
            Cell::Object(_, _) => Ok(()),
            Cell::Array(element, items) => self.note_array(*element, items.len() as u16),
        }
    }

    // Notes a kept array of so many elements of the type of this number.
    fn note_array(&mut self, element: u32, size: u16) -> Result<(), NoMemory>
        requires { HasPlace true (ArrayOf element size) self.old }
        ensures { OnOk result (self.new ≡ noted true (ArrayOf element size) self.old) }
    {
        let place = element as usize;
        if self.counts[place] == 0 {
            self.order.push(element)?;
        }
        self.sizes[place] += size;
        self.counts[place] += 1;
        Ok(())
    }
}

/// The arrays of each type among these cells.
pub fn arrays_of(
    alloc: Global,
    tables: &Tables,
    cells: &[Cell],
    live: &[Option<Reason>],
) -> Result<Arrays, NoMemory>
    requires listed { AreListed tables.now (map kind_of cells.now) }
    requires few { AreFew (map kind_of cells.now) }
    requires small { elements_in (map kind_of cells.now) ≤ 60000 }
    ensures { IfOk result (HasNoted (length tables.now.types) (map kind_of cells.now) (numbering.has_reason live.now) (length cells.now)) }
{
    let mut arrays = Arrays::new(alloc, tables.types.len())?;
    for index in 0..cells.len() {
        arrays.note(&cells[index], is_kept(live, index))?;
    }
    Ok(arrays)
}
