// What the code of methods, of routines and of the procedure with which a run begins calls, and whether it idles.
ghost use Rattle.std.specs.Prelude.{◌≡◌, ◌↔◌, IsTrue};
ghost use Rattle.std.specs.List.{AllByRecursion};
ghost use Rattle.vg_frame_costs.specs.Fitting.{
  BeginsWithCall,
  IsBefore,
  IsByNumber,
  IsOfMethod,
  IsOfRoutine,
  IsOfStart,
  IsOther,
};

use vg_lin::{Callee, Instr};

/// Whether code is that of a method: it does not idle, and does not call the procedure of the number `start`.
pub fn are_of_method(code: &[Instr], start: u16) -> bool
    ensures { IsTrue result ↔ AllByRecursion (IsOfMethod start) code.now }
{
    for instr in code {
        if !is_of_method(*instr, start) {
            return false;
        }
    }
    true
}

fn is_of_method(instr: Instr, start: u16) -> bool
    ensures { IsTrue result ↔ IsOfMethod start instr }
{
    match instr {
        Instr::Call(call) => is_other(call.callee, start),
        Instr::Idle => false,
        _ => true,
    }
}

fn is_other(callee: Callee, start: u16) -> bool
    ensures { IsTrue result ↔ IsOther start callee }
{
    match callee {
        Callee::Procedure(q) => q != start,
        Callee::Code(_) => true,
    }
}

/// Whether code is that of a routine: it does not idle, and calls nothing.
pub fn are_of_routine(code: &[Instr]) -> bool
    ensures { IsTrue result ↔ AllByRecursion IsOfRoutine code.now }
{
    for instr in code {
        if !is_of_routine(*instr) {
            return false;
        }
    }
    true
}

fn is_of_routine(instr: Instr) -> bool
    ensures { IsTrue result ↔ IsOfRoutine instr }
{
    match instr {
        Instr::Call(_) => false,
        Instr::Idle => false,
        _ => true,
    }
}

/// Whether code is that of the procedure with the number `start`, with which a run begins: it calls those before it alone, or by their code numbers.
pub fn are_of_start(code: &[Instr], start: u16) -> bool
    ensures { IsTrue result ↔ AllByRecursion (IsOfStart start) code.now }
{
    for instr in code {
        if !is_of_start(*instr, start) {
            return false;
        }
    }
    true
}

fn is_of_start(instr: Instr, start: u16) -> bool
    ensures { IsTrue result ↔ IsOfStart start instr }
{
    match instr {
        Instr::Call(call) => is_before(call.callee, start),
        _ => true,
    }
}

fn is_before(callee: Callee, start: u16) -> bool
    ensures { IsTrue result ↔ IsBefore start callee }
{
    match callee {
        Callee::Procedure(q) => q < start,
        Callee::Code(_) => true,
    }
}

/// Whether code begins with a call of a procedure by its number.
pub fn begins_with_call(code: &[Instr]) -> bool
    ensures { IsTrue result ↔ BeginsWithCall code.now }
{
    match code {
        [Instr::Call(call), ..] => is_by_number(call.callee),
        _ => false,
    }
}

fn is_by_number(callee: Callee) -> bool
    ensures { IsTrue result ↔ IsByNumber callee }
{
    match callee {
        Callee::Procedure(_) => true,
        Callee::Code(_) => false,
    }
}
