// Values that are put into columns.
ghost use Rattle.std.specs.Prelude.{◌≡◌, slice_get, slice_set};
ghost use Rattle.vg_codes.specs.Codes.{Codes};
ghost use Rattle.vg_pack_values.specs.Columns.{numbers_in, row_at, with_number};
ghost use Rattle.vg_tables.specs.Entries.{number_in};

use std::alloc::Global;
use std::mem;
use vg_base::Row;
use vg_firm::Home;
use vg_tables::Entry;

/// Puts an entry at an index of a column, where that is there and stands in RAM.
pub fn put(
    alloc: Global,
    rows: &mut Vec<Row<Entry>>,
    home: Home,
    column: u16,
    index: usize,
    entry: Entry,
)
    ensures { (k : Codes) → numbers_in k rows.new.items ≡ with_number home column index (number_in k entry) (numbers_in k rows.old.items) }
{
    match home {
        Home::Ram => set(alloc, rows, usize::from(column), index, entry),
        Home::Flash => {}
    }
}

// Sets an entry of a row, where that is there.
fn set(alloc: Global, rows: &mut Vec<Row<Entry>>, column: usize, index: usize, entry: Entry)
    ensures { rows.new.items ≡ slice_set rows.old.items column (slice_set (row_at (slice_get rows.old.items column)) index entry) }
{
    if column < rows.len() {
        let row = mem::replace(&mut rows[column], Row::new(alloc));
        rows[column] = row_with(row, index, entry);
    }
}

// The row with another entry at this place, where there is one. It takes no memory.
fn row_with(row: Row<Entry>, index: usize, entry: Entry) -> Row<Entry>
    ensures { result ≡ slice_set row index entry }
{
    let mut entries = row.into_vec();
    set_entry(&mut entries, index, entry);
    Row::from_vec(entries)
}

// Another entry at this place, where there is one.
fn set_entry(entries: &mut Vec<Entry>, index: usize, entry: Entry)
    ensures { entries.new.items ≡ slice_set entries.old.items index entry }
{
    if index < entries.len() {
        entries[index] = entry;
    }
}
