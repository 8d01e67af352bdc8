// Columns without values.
ghost use Rattle.std.specs.Prelude.{◌≡◌, ◌++◌, IfOk, OnOk};
ghost use Rattle.vg_pack_values.specs.Columns.{blank_if, blank_rows};

use std::alloc::Global;
use vg_base::{NoMemory, Row};
use vg_firm::Home;
use vg_placement::Column;
use vg_tables::Entry;

/// The columns in RAM, with 0 for each value.
pub fn blank_columns(alloc: Global, columns: &[Column]) -> Result<Vec<Row<Entry>>, NoMemory>
    ensures { IfOk result (λ rows. rows.items ≡ blank_rows columns.now) }
{
    let mut rows = Vec::new(alloc);
    for column in columns {
        push_blank(alloc, &mut rows, column.home, column.count)?;
    }
    Ok(rows)
}

// Puts a column behind others, where it stands in RAM.
fn push_blank(
    alloc: Global,
    rows: &mut Vec<Row<Entry>>,
    home: Home,
    count: u16,
) -> Result<(), NoMemory>
    ensures { OnOk result (rows.new.items ≡ rows.old.items ++ blank_if home count) }
{
    match home {
        Home::Ram => {
            let values = Vec::from_elem(alloc, Entry::Number(0), usize::from(count))?;
            rows.push(Row::from_vec(values))?;
            Ok(())
        }
        Home::Flash => Ok(()),
    }
}
