// How deep the calls of packed programs go.
use crate::packing::Whole;
use std::alloc::Global;
use vg_base::NoMemory;
use vg_call_need::{Need, stack_need};
use vg_rows_lines::said;

/// How many calls are active at most, or that calls go round: the largest cost of active calls, where each method costs 1.
pub fn deepest_text(alloc: Global, whole: &Whole) -> Result<String, NoMemory> {
    let mut costs = Vec::new(alloc);
    for _method in whole.fitted.alive.start.program.tables.methods.as_slice() {
        costs.push(1)?;
    }
    let firm = &whole.program;
    let count = firm.procedures.len();
    if count > 65_536 || usize::from(firm.main) >= count {
        return said(alloc, "unknown");
    }
    match stack_need(alloc, firm, costs.as_slice(), 0)? {
        Need::Bytes(active) => Ok(format!(in alloc; "{active}")?),
        Need::Cycle(_) => said(alloc, "round"),
    }
}
