// Counters.
ghost use Rattle.std.specs.Prelude.{◌≡◌, ◌<◌, [], IfOk, Some, get_or, length, map};
ghost use Rattle.vg_core.specs.Heap.{kind_of};
ghost use Rattle.vg_number.specs.Counting.{counted, handed, raised, HasRoom, HasWalked, HaveRoom};
ghost use Rattle.vg_number.specs.Counts.{counts};
ghost use Rattle.vg_number.specs.Numbering.{has_reason};

use std::alloc::Global;
use std::marker::Model;
use vg_base::{NoMemory, Row};
use vg_core::Cell;
use vg_live::Reason;

/// A counter for each class, of its own objects, and one for each type, of the arrays of elements of it.
#[derive(Drop)]
pub struct Counters {
    objects: Vec<u16>,
    arrays: Vec<u16>,
}

impl Model for Counters {
    ghost use Rattle.vg_number.specs.Counts.{Counts, counts};

    ghost Value = { Counts };

    ghost view = { λ c. counts c.objects.items c.arrays.items };
}

impl Counters {
    /// Counters that begin with these numbers.
    pub fn new(objects: Vec<u16>, arrays: Vec<u16>) -> Self
        ensures { result ≡ counts objects.items arrays.items }
    {
        Counters { objects, arrays }
    }

    /// The counters of the classes. It takes no memory.
    pub fn into_objects(self) -> Vec<u16>
        ensures { result.items ≡ self.objects }
    {
        self.objects
    }

    // What the counter of a kept cell has, which then counts the cell; 0 for any other.
    fn hand(&mut self, cell: &Cell, kept: bool) -> u16
        requires { HasRoom kept (kind_of cell.now) self.old }
        ensures handed { result ≡ handed kept (Some (kind_of cell.now)) self.old }
        ensures counted { self.new ≡ counted kept (kind_of cell.now) self.old }
    {
        if !kept {
            return 0;
        }
        match cell {
            Cell::Object(class, _) => raise(&mut self.objects, usize::from(*class)),
            Cell::Array(element, _) => raise(&mut self.arrays, *element as usize),
        }
    }
}

// The number at a place, which is one more behind it.
fn raise(numbers: &mut Vec<u16>, place: usize) -> u16
    requires within { place < length numbers.old.items }
    requires below { get_or numbers.old.items place 0 < 65535 }
    ensures before { result ≡ get_or numbers.old.items place 0 }
    ensures after { numbers.new.items ≡ raised place numbers.old.items }
{
    let number = numbers[place];
    numbers[place] = number + 1;
    number
}

/// Whether the member of this number has a reason to be live.
pub fn is_kept(live: &[Option<Reason>], member: usize) -> bool
    ensures { result ≡ has_reason live.now member }
{
    match live.get(member) {
        Some(reason) => reason.is_some(),
        None => false,
    }
}

/// Counts all kept cells in order of making: what each cell is handed.
pub fn walk(
    alloc: Global,
    cells: &[Cell],
    live: &[Option<Reason>],
    counters: &mut Counters,
) -> Result<Row<u16>, NoMemory>
    requires { HaveRoom (map kind_of cells.now) (has_reason live.now) counters.old }
    ensures { IfOk result (λ of_cell.
        HasWalked (map kind_of cells.now) (has_reason live.now) counters.old (length cells.now) of_cell counters.new) }
{
    let mut of_cell = Row::new(alloc);
    for index in 0..cells.len() {
        let number = counters.hand(&cells[index], is_kept(live, index));
        of_cell.push(number)?;
    }
    Ok(of_cell)
}
