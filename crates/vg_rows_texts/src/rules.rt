// What `build` says of a text.
ghost use Rattle.std.specs.Prelude.{◌≤◌, length};
ghost use Rattle.vg_base.specs.Limits.{text_limit};

use crate::faults::fault_text;
use std::alloc::Global;
use vg_base::{NoMemory, Refusal};
use vg_faults::Fault;
use vg_front::started;
use vg_rows_lines::said;

/// What `build` says of a text: `kept` where it is refused for nothing that is asked of it, else the line of its fault.
pub fn judged(alloc: Global, text: &[u8]) -> Result<String, NoMemory>
    requires { length text.now ≤ text_limit }
{
    match started(alloc, text, 1_000_000) {
        Ok(_) => said(alloc, "kept"),
        Err(Refusal::Fault(fault)) => fault_or_kept(alloc, fault),
        Err(Refusal::NoMemory) => Err(NoMemory),
    }
}

// What is said of a fault. One of initialisation is a fault of a text that keeps all rules.
fn fault_or_kept(alloc: Global, fault: Fault) -> Result<String, NoMemory> {
    if is_of_init(&fault) {
        return said(alloc, "kept");
    }
    fault_text(alloc, fault)
}

// Whether a fault is one of initialisation.
fn is_of_init(fault: &Fault) -> bool {
    match fault {
        Fault::InitTrap { .. }
        | Fault::InitSteps
        | Fault::InitDepth
        | Fault::InitTouches(_)
        | Fault::InitTooBig => true,
        _ => false,
    }
}
