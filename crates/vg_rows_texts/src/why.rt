// Why a member is live.
ghost use Rattle.std.specs.Prelude.{◌≤◌, length};
ghost use Rattle.vg_base.specs.Limits.{text_limit};

use crate::faults::fault_text;
use std::alloc::Global;
use vg_base::{NoMemory, Refusal};
use vg_why::why_lines;

/// Why a member of a text is live: the lines with a comma between them, or the line of the fault.
pub fn told(alloc: Global, text: &[u8], member: &str) -> Result<String, NoMemory>
    requires { length text.now ≤ text_limit }
{
    match why_lines(alloc, text, member) {
        Ok(lines) => shown(alloc, lines.as_slice()),
        Err(Refusal::Fault(fault)) => fault_text(alloc, fault),
        Err(Refusal::NoMemory) => Err(NoMemory),
    }
}

// Lines with a comma between them.
fn shown(alloc: Global, lines: &[u8]) -> Result<String, NoMemory> {
    let mut text = String::new(alloc);
    let mut ended = false;
    for byte in lines {
        if ended {
            text.push_str(", ")?;
            ended = false;
        }
        match *byte {
            b'\n' => ended = true,
            other => text.push(char::from(other))?,
        }
    }
    Ok(text)
}
