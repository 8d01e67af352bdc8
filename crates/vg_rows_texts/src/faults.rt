// What is said of a text that is refused.
use std::alloc::Global;
use vg_base::NoMemory;
use vg_faults::Fault;
use vg_rows_lines::{said, shown_text};
use vg_status::{Status, fault_line};

/// The line of a fault, as the program puts it, without its end.
pub fn fault_text(alloc: Global, fault: Fault) -> Result<String, NoMemory> {
    let status = Status::Refused(fault);
    match fault_line(&status).as_bytes().split_last() {
        Some((_end, line)) => shown_text(alloc, line),
        None => said(alloc, ""),
    }
}
