// What is answered to the questions of the table.
use crate::graphs::bound_of;
use crate::texts::{is_text, sum_of};
use std::alloc::Global;
use vg_base::NoMemory;
use vg_rows_lines::{TextLine, said, spelled};

/// The answer to the question of a line.
pub fn answer_of(alloc: Global, line: TextLine<'_>) -> Result<String, NoMemory> {
    let number = line.word.parse::<u32>().unwrap_or(0);
    match line.question {
        "bound" => bound_of(alloc, line.text),
        "text" => {
            let wanted = spelled(alloc, line.text)?;
            is_text(alloc, number, wanted.as_slice())
        }
        "sum" => sum_of(alloc, number),
        _ => said(alloc, "no such question"),
    }
}
