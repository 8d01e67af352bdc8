// The bound by what calls need.
ghost use Rattle.std.specs.Prelude.{◌≡◌, IfOk, map};
ghost use Rattle.vg_calls_packed.specs.Ways.{method_at};
ghost use Rattle.vg_call_need.specs.Bounds.{IsBoundOf, IsFewOf};
ghost use Rattle.vg_layout.specs.Few.{IsFew};

use crate::need::Need;
use std::alloc::Global;
use vg_base::{NoMemory, Row};
use vg_firm::Procedure;
use vg_layout::StackBound;
use vg_packed::FirmProgram;

/// How much stack is enough: the bytes that calls need, of which a stack has as many, or the methods of a cycle of procedures.
pub fn bound_of(
    alloc: Global,
    firm: &FirmProgram,
    need: &Need,
    stack: u16,
) -> Result<StackBound, NoMemory>
    requires { IsFewOf stack need.now }
    ensures bound { IfOk result (IsBoundOf firm.now need.now) }
    ensures few { IfOk result (IsFew stack) }
{
    match need {
        Need::Bytes(bytes) => Ok(StackBound::Bytes(*bytes as u32)),
        Need::Cycle(procedures) => {
            let methods = methods_of(alloc, firm.procedures.as_slice(), procedures.as_slice())?;
            Ok(StackBound::Cycle(methods))
        }
    }
}

// The methods that procedures are.
fn methods_of(alloc: Global, all: &[Procedure], procedures: &[u16]) -> Result<Row<u16>, NoMemory>
    ensures { IfOk result (λ methods. methods ≡ map (method_at all.now) procedures.now) }
{
    let mut methods = Row::new(alloc);
    for place in procedures {
        methods.push(method_of(all, *place))?;
    }
    Ok(methods)
}

// The method that a procedure is; 0 where there is none.
fn method_of(all: &[Procedure], place: u16) -> u16
    ensures { result ≡ method_at all.now place }
{
    match all.get(usize::from(place)) {
        Some(procedure) => procedure.method,
        None => 0,
    }
}
