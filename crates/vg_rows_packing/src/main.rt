//! A table of packed programs: a question about a text a line comes in, with its answer; each line that differs goes out, and how many there are. The questions are
//! what a method's procedure is, which procedures and dispatches there are, which bytes the tables have, what the packed program and its linear code show on a
//! script, how many instructions the linear code has, and how many calls are active at most.
#![tactic(auto)]

mod answers;
mod bytes;
mod deepest;
mod linear;
mod named;
mod packing;
mod runs;

use answers::answer_of;
use std::io;
use vg_rows_lines::TextLine;

fn main(rt: HostRuntime) -> io::Result<()> {
    let alloc = rt.alloc();
    let mut rows = 0u64;
    let mut differ = 0u64;
    for text in rt.lines(alloc) {
        let text = text?;
        let Some(line) = TextLine::of(text.as_str()) else {
            continue;
        };
        let Ok(answer) = answer_of(alloc, line) else {
            return Err(io::ErrorKind::OutOfMemory.into());
        };
        rows = rows.saturating_add(1);
        if answer.as_str() != line.answer {
            differ = differ.saturating_add(1);
            println!(rt; "differs: {}", text.as_str())?;
            println!(rt; "answers: {}", answer.as_str())?;
        }
    }
    println!(rt; "{rows} rows, {differ} differ")
}
