//! A table of calls of commands: one call a line comes in, with what it must answer and put; each line that differs goes out, and how many there are.
#![tactic(auto)]

mod answers;
mod files;
mod line;
mod sinks;
mod spelled;
mod statuses;
mod table;

use answers::answer_to;
use line::CallLine;
use std::io;
use table::Table;

fn main(rt: HostRuntime) -> io::Result<()> {
    let alloc = rt.alloc();
    let mut table = Table::new(alloc);
    let mut rows = 0u64;
    let mut differ = 0u64;
    for text in rt.lines(alloc) {
        let text = text?;
        let Some(line) = CallLine::of(text.as_str()) else {
            continue;
        };
        let Ok(holds) = holds(&mut table, line) else {
            return Err(io::ErrorKind::OutOfMemory.into());
        };
        if line.wanted.is_some() {
            rows = rows.saturating_add(1);
        }
        if !holds {
            differ = differ.saturating_add(1);
            println!(rt; "differs: {}", text.as_str())?;
        }
    }
    println!(rt; "{rows} rows, {differ} differ")
}

// Whether a row is answered as it says, and whether a line that sets something could be read.
fn holds(table: &mut Table, line: CallLine<'_>) -> Result<bool, vg_base::NoMemory> {
    match line.wanted {
        None => table.set(line.kind, line.words),
        Some(wanted) => {
            let given = answer_to(table, line.kind, line.words)?;
            let wanted = table.all_spelled(wanted)?;
            match (given, wanted) {
                (Some(given), Some(wanted)) => Ok(given.as_slice() == wanted.as_slice()),
                _ => Ok(false),
            }
        }
    }
}
