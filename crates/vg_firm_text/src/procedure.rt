// Procedures and dispatches as text.
use crate::code::put_code;
use std::alloc::Global;
use vg_base::NoMemory;
use vg_codes::Case;
use vg_firm::Procedure;

/// Puts a procedure behind a text: how many parameters it has, whether it receives, the widths of its locals and of its result, the procedures that it calls, and its
/// code behind a colon.
pub fn put_procedure(
    alloc: Global,
    text: &mut String,
    procedure: &Procedure,
) -> Result<(), NoMemory> {
    let receives = if procedure.receives {
        "receives"
    } else {
        "alone"
    };
    let part = format!(in alloc; "params {}, {receives}, locals", procedure.params)?;
    text.push_str(part.as_str())?;
    for width in procedure.widths.as_slice() {
        let part = format!(in alloc; " {width}")?;
        text.push_str(part.as_str())?;
    }
    let part = format!(in alloc; ", result {}, calls", procedure.result)?;
    text.push_str(part.as_str())?;
    for call in procedure.calls.as_slice() {
        let part = format!(in alloc; " q{call}")?;
        text.push_str(part.as_str())?;
    }
    text.push_str(":")?;
    put_code(alloc, text, &procedure.body)
}

/// Puts the cases of a dispatch behind a text: the objects from the first on, so many, and their procedure.
pub fn put_dispatch(alloc: Global, text: &mut String, cases: &[Case]) -> Result<(), NoMemory> {
    for case in cases {
        let part = format!(in alloc; " {}+{} q{}", case.first, case.count, case.procedure)?;
        text.push_str(part.as_str())?;
    }
    Ok(())
}
