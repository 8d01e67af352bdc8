// The routines behind the procedures that call them.
ghost use Rattle.std.specs.Prelude.{◌≡◌, ◌<◌, IfOk};
ghost use Rattle.vg_expand.specs.Called.{code_calls, is_call_of, is_called, is_named};
ghost use Rattle.vg_linear.specs.Routines.{WithRoutines, empty, standing};

use std::alloc::Global;
use vg_arith::routine;
use vg_base::{NoMemory, Row};
use vg_lin::{Callee, Instr, LinProc, Operand};

/// The procedures with the four routines behind them, of which the first one has this number. A routine stands there only where one of the procedures
/// calls it: in its place is else a procedure that returns at once, so that each one keeps its number.
pub fn with_routines(
    alloc: Global,
    procedures: Row<LinProc>,
    first: u16,
) -> Result<Row<LinProc>, NoMemory>
    requires { first < 65533 }
    ensures { IfOk result (WithRoutines first procedures) }
{
    let product = standing(alloc, procedures.as_slice(), first, 0)?;
    let division = standing(alloc, procedures.as_slice(), first, 1)?;
    let left = standing(alloc, procedures.as_slice(), first, 2)?;
    let right = standing(alloc, procedures.as_slice(), first, 3)?;
    let mut all = procedures;
    all.push(product)?;
    all.push(division)?;
    all.push(left)?;
    all.push(right)?;
    Ok(all)
}

// What stands for a routine.
fn standing(
    alloc: Global,
    procedures: &[LinProc],
    first: u16,
    which: u8,
) -> Result<LinProc, NoMemory>
    requires number { first < 65533 }
    requires which { which < 4 }
    ensures { IfOk result (λ p. p ≡ standing first procedures.now which) }
{
    if is_called(procedures, first + u16::from(which)) {
        routine(alloc, which)
    } else {
        empty(alloc)
    }
}

// A procedure that returns at once.
fn empty(alloc: Global) -> Result<LinProc, NoMemory>
    ensures { IfOk result (λ p. p ≡ empty) }
{
    let mut code = Row::new(alloc);
    code.push(Instr::Return(0, Operand::Known(0)))?;
    Ok(LinProc::new(None, 0, 0, Row::new(alloc), code))
}

// Whether one of the procedures calls the procedure with this number, by that number.
fn is_called(procedures: &[LinProc], number: u16) -> bool
    ensures { result ≡ is_called number procedures.now }
{
    procedures
        .iter()
        .any(|procedure| code_calls(procedure.code(), number))
}

fn code_calls(code: &[Instr], number: u16) -> bool
    ensures { result ≡ code_calls number code.now }
{
    code.iter().any(|instr| is_call_of(*instr, number))
}

fn is_call_of(instr: Instr, number: u16) -> bool
    ensures { result ≡ is_call_of number instr }
{
    match instr {
        Instr::Call(call) => is_named(call.callee, number),
        _ => false,
    }
}

fn is_named(callee: Callee, number: u16) -> bool
    ensures { result ≡ is_named number callee }
{
    match callee {
        Callee::Procedure(named) => named == number,
        Callee::Code(_) => false,
    }
}
