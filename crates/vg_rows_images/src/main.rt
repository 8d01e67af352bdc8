//! A table of images: a text and a script a line come in, with what the machine shows in the image of the text, or a text with its layout; each line that
//! differs goes out, and how many there are.
#![tactic(auto)]

mod images;

use images::answer_of;
use std::io;
use vg_rows_lines::TextLine;

fn main(rt: HostRuntime) -> io::Result<()> {
    let alloc = rt.alloc();
    let mut rows = 0u64;
    let mut differ = 0u64;
    for text in rt.lines(alloc) {
        let text = text?;
        let Some(line) = TextLine::of(text.as_str()) else {
            continue;
        };
        let Ok(answer) = answer_of(alloc, line) else {
            return Err(io::ErrorKind::OutOfMemory.into());
        };
        rows = rows.saturating_add(1);
        if answer.as_str() != line.answer {
            differ = differ.saturating_add(1);
            println!(rt; "differs: {}", text.as_str())?;
            println!(rt; "answers: {}", answer.as_str())?;
        }
    }
    println!(rt; "{rows} rows, {differ} differ")
}
