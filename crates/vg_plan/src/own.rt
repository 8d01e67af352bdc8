// The own objects of classes.
ghost use Rattle.std.specs.Prelude.{IfOk, length, map};
ghost use Rattle.vg_core.specs.Heap.{kind_of};
ghost use Rattle.vg_number.specs.Counting.{AreOwn};
ghost use Rattle.vg_number.specs.Numbering as numbering;
ghost use Rattle.vg_number.specs.Numbering.{AreFew, AreListed};
ghost use Rattle.vg_numbers.specs.Numbers.{AreChains};

use std::alloc::Global;
use vg_base::NoMemory;
use vg_core::{Cell, Tables};
use vg_live::Reason;
use vg_number::counters::{Counters, walk};

/// How many kept objects each class itself has.
pub fn own_objects(
    alloc: Global,
    tables: &Tables,
    cells: &[Cell],
    live: &[Option<Reason>],
) -> Result<Vec<u16>, NoMemory>
    requires chains { AreChains tables.now }
    requires listed { AreListed tables.now (map kind_of cells.now) }
    requires few { AreFew (map kind_of cells.now) }
    ensures { IfOk result (λ own. AreOwn (map kind_of cells.now) (numbering.has_reason live.now) (length tables.now.classes) own.items) }
{
    let objects = Vec::from_elem(alloc, 0u16, tables.classes.len())?;
    let arrays = Vec::from_elem(alloc, 0u16, tables.types.len())?;
    let mut counters = Counters::new(objects, arrays);
    walk(alloc, cells, live, &mut counters)?;
    Ok(counters.into_objects())
}
