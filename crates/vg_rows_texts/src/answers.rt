// What a line of the table asks.
use crate::columns::placed;
use crate::programs::outlined;
use crate::rules::judged;
use crate::sessions::played;
use crate::why::told;
use std::alloc::Global;
use vg_base::{NoMemory, TEXT_LIMIT};
use vg_rows_lines::{TextLine, said, spelled};

/// What the text of a line answers to its question.
pub fn answer_of(alloc: Global, line: TextLine<'_>) -> Result<String, NoMemory> {
    let text = spelled(alloc, line.text)?;
    if text.len() > TEXT_LIMIT {
        return said(alloc, "too long");
    }
    match line.question {
        "program" => outlined(alloc, text.as_slice()),
        "build" => judged(alloc, text.as_slice()),
        "columns" => placed(alloc, text.as_slice()),
        "why" => told(alloc, text.as_slice(), line.word),
        _ => played(alloc, text.as_slice(), line),
    }
}
