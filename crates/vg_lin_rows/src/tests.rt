use crate::sample::sample_procedure;
use crate::smallest::smallest_procedure;
use vg_arith::{ROUTINES, routine};
use vg_base::{NoMemory, Refusal};
use vg_expand::expand;
use vg_lin::{Callee, Instr};

// How many instructions and locals the routines have together, where there was memory for them.
#[test]
fn procedures_are_made(rt: HostRuntime) {
    let alloc = rt.alloc();
    let smallest = smallest_procedure(alloc).map(|p| p.code().len());
    let product = routine(alloc, 0).map(|p| p.code().len() + p.widths().len());
    let division = routine(alloc, 1).map(|p| p.code().len() + p.widths().len());
    let left = routine(alloc, 2).map(|p| p.code().len() + p.widths().len());
    let right = routine(alloc, 3).map(|p| p.code().len() + p.widths().len());
    assert!(rt; smallest == Ok(1) && product == Ok(38) && division == Ok(21));
    assert!(rt; left == Ok(4) && right == Ok(6) && ROUTINES == 4);
}

// A division, a product that is cut and a shift become calls, and a product by 9 two instructions; the branch leads behind them.
#[test]
fn arithmetic_becomes_calls(rt: HostRuntime) {
    let alloc = rt.alloc();
    let expanded = match sample_procedure(alloc) {
        Ok(sample) => expand(alloc, &sample, 20),
        Err(NoMemory) => Err(Refusal::NoMemory),
    };
    let (length, branch, calls) = match &expanded {
        Ok(proc) => {
            let code = proc.code();
            let branch = match code.get(0) {
                Some(Instr::When(_, place)) => *place,
                _ => 0,
            };
            let calls = is_call(code, 1, 21) && is_call(code, 2, 20) && is_call(code, 6, 23);
            (code.len(), branch, calls)
        }
        Err(_) => (0, 0, false),
    };
    assert!(rt; length == 8 && branch == 7 && calls);
}

// Whether the instruction at a place calls the procedure with this number.
fn is_call(code: &[Instr], at: usize, procedure: u16) -> bool {
    match code.get(at) {
        Some(Instr::Call(call)) => match call.callee {
            Callee::Procedure(number) => number == procedure,
            Callee::Code(_) => false,
        },
        _ => false,
    }
}
