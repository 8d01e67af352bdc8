// The numbers.
ghost use Rattle.std.specs.Prelude.{◌≡◌, ◌<◌, IfOk, length, map};
ghost use Rattle.vg_core.specs.Heap.{kind_of};
ghost use Rattle.vg_number.specs.Counting.{first_of, AreNumbers, AreOwn, AreSpans};
ghost use Rattle.vg_number.specs.Numbering.{has_reason, kept_in, kinds_of, AreFew, AreListed, IsNumbering};
ghost use Rattle.vg_numbers.specs.Numbers.{AreChains};

use crate::counters::{Counters, walk};
use crate::spans::spans;
use std::alloc::Global;
use vg_base::{NoMemory, Row};
use vg_core::{Cell, Program, Tables};
use vg_live::{LiveSet, Reason};
use vg_shape::Store;

/// The numbers of the objects of a class and of those below it: the first, and how many there are.
#[derive(Clone, Copy, Debug, PartialEq, Eq)]
pub struct Span {
    pub first: u16,
    pub count: u16,
}

/// The number of each cell, 0 where it is not kept, and the interval of each class.
#[derive(Drop)]
pub struct Numbers {
    pub of_cell: Row<u16>,
    pub spans: Row<Span>,
}

/// The numbers of the live cells: from 1 in their hierarchy or their type, the objects of a class with all below it side by side.
///
/// It refuses nothing but want of memory. The heap has at most 60,000 cells.
pub fn number(
    alloc: Global,
    program: &Program,
    heap: &Store,
    live: &LiveSet,
) -> Result<Numbers, NoMemory>
    requires chains { AreChains program.now.tables }
    requires classes { length program.now.tables.classes < 65536 }
    requires listed { AreListed program.now.tables (kinds_of heap.now) }
    requires few { AreFew (kinds_of heap.now) }
    ensures { IfOk result (IsNumbering program.now.tables (kinds_of heap.now) (kept_in live.now)) }
{
    let tables = &program.tables;
    let cells = heap.cells();
    let kept = live.cells.as_slice();
    let spans = spans_of(alloc, tables, cells, kept)?;
    let of_cell = hand_out(alloc, tables, cells, kept, spans.as_slice())?;
    Ok(Numbers { of_cell, spans })
}

// The intervals of the classes.
fn spans_of(
    alloc: Global,
    tables: &Tables,
    cells: &[Cell],
    live: &[Option<Reason>],
) -> Result<Row<Span>, NoMemory>
    requires chains { AreChains tables.now }
    requires classes { length tables.now.classes < 65536 }
    requires listed { AreListed tables.now (map kind_of cells.now) }
    requires few { AreFew (map kind_of cells.now) }
    ensures { IfOk result (AreSpans tables.now (map kind_of cells.now) (has_reason live.now)) }
{
    let own = own_counts(alloc, tables, cells, live)?;
    let rows = spans(alloc, tables, own.as_slice())?;
    Ok(rows)
}

// How many kept objects each class itself has.
fn own_counts(
    alloc: Global,
    tables: &Tables,
    cells: &[Cell],
    live: &[Option<Reason>],
) -> Result<Vec<u16>, NoMemory>
    requires chains { AreChains tables.now }
    requires listed { AreListed tables.now (map kind_of cells.now) }
    requires few { AreFew (map kind_of cells.now) }
    ensures { IfOk result (λ own. AreOwn (map kind_of cells.now) (has_reason live.now) (length tables.now.classes) own.items) }
{
    let objects = Vec::from_elem(alloc, 0u16, tables.classes.len())?;
    let arrays = Vec::from_elem(alloc, 0u16, tables.types.len())?;
    let mut counters = Counters::new(objects, arrays);
    walk(alloc, cells, live, &mut counters)?;
    Ok(counters.into_objects())
}

// Hands the numbers of each class and of each type to its cells, in order of making.
fn hand_out(
    alloc: Global,
    tables: &Tables,
    cells: &[Cell],
    live: &[Option<Reason>],
    spans: &[Span],
) -> Result<Row<u16>, NoMemory>
    requires chains { AreChains tables.now }
    requires listed { AreListed tables.now (map kind_of cells.now) }
    requires few { AreFew (map kind_of cells.now) }
    requires spans { AreSpans tables.now (map kind_of cells.now) (has_reason live.now) spans.now }
    ensures { IfOk result (AreNumbers tables.now (map kind_of cells.now) (has_reason live.now)) }
{
    let objects = firsts(alloc, spans)?;
    let arrays = Vec::from_elem(alloc, 1u16, tables.types.len())?;
    let mut counters = Counters::new(objects, arrays);
    let of_cell = walk(alloc, cells, live, &mut counters)?;
    Ok(of_cell)
}

// The first number of each class.
fn firsts(alloc: Global, spans: &[Span]) -> Result<Vec<u16>, NoMemory>
    ensures { IfOk result (λ firsts. firsts.items ≡ map first_of spans.now) }
{
    let mut firsts = Vec::new(alloc);
    for span in spans {
        firsts.push(span.first)?;
    }
    Ok(firsts)
}
