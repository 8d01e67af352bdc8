// The typed program of a text.
ghost use Rattle.std.specs.Prelude.{◌≤◌, length};
ghost use Rattle.vg_base.specs.Limits.{text_limit};

use crate::outline::outline;
use std::alloc::Global;
use vg_base::{Names, NoMemory, Refusal};
use vg_reader::read;
use vg_rows_lines::said;
use vg_types::{TypeFault, check};

/// The outline of the typed program of a text, or what the text is refused for, with the number of the node.
pub fn outlined(alloc: Global, text: &[u8]) -> Result<String, NoMemory>
    requires { length text.now ≤ text_limit }
{
    let mut names = Names::new(alloc);
    let tree = match read(alloc, text, &mut names) {
        Ok(tree) => tree,
        Err(Refusal::Fault(_)) => return said(alloc, "no tree"),
        Err(Refusal::NoMemory) => return Err(NoMemory),
    };
    match check(alloc, &names, &tree) {
        Ok(program) => outline(alloc, &names, &program),
        Err(Refusal::Fault(fault)) => refused(alloc, fault),
        Err(Refusal::NoMemory) => Err(NoMemory),
    }
}

// What a text is refused for.
fn refused(alloc: Global, fault: TypeFault) -> Result<String, NoMemory> {
    match fault {
        TypeFault::TooMany(many) => Ok(format!(in alloc;
            "more than {} at node {}",
            many.limit, many.node.0
        )?),
        TypeFault::Broken(broken) => Ok(format!(in alloc;
            "rule {} at node {}",
            broken.rule, broken.node.0
        )?),
    }
}
