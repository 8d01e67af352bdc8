//! A table of single instructions, checked against the machine: one instruction a line comes in, with what it must leave; each line that differs goes
//! out, and how many there are.
#![tactic(auto)]

mod line;
mod outcome;
mod part;

use avr_isa::Image;
use line::StepLine;
use std::io;

// The first bytes of the flash where a line names none; the rest of it is erased.
const FLASH: [u8; 3] = [0x10, 0x21, 0x32];

fn main(rt: HostRuntime) -> io::Result<()> {
    let alloc = rt.alloc();
    let flash = Image::from_vec(Vec::from_slice(alloc, &FLASH)?);
    let mut steps = 0u64;
    let mut differ = 0u64;
    for text in rt.lines(alloc) {
        let text = text?;
        let Some(step_line) = StepLine::of(text.as_str()) else {
            continue;
        };
        steps = steps.saturating_add(1);
        let Ok(named) = step_line.flash(alloc) else {
            return Err(io::ErrorKind::OutOfMemory.into());
        };
        let Ok(holds) = step_line.holds(alloc, named.as_ref().unwrap_or(&flash)) else {
            return Err(io::ErrorKind::OutOfMemory.into());
        };
        if !holds {
            differ = differ.saturating_add(1);
            println!(rt; "differs: {}", text.as_str())?;
        }
    }
    println!(rt; "{steps} steps, {differ} differ")
}
