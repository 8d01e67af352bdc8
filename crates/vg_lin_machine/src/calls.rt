// How procedures are entered.
ghost use Rattle.std.specs.Prelude.{◌≡◌, [], IfOk, Some, slice_get};
ghost use Rattle.vg_lin.specs.Meaning.{called, enter, same_widths, gives_to, begun, widths_of};
ghost use Rattle.vg_lin_states.specs.Programs.{program_of};
ghost use Rattle.vg_lin_machine.specs.Entering.{takes, Enters};

use std::alloc::Global;
use vg_base::NoMemory;
use vg_lin::{Call, Callee, Target};
use vg_lin_states::{AnyProc, Held, LinProgram, LinState};

/// A procedure that is entered, and the state in which it begins.
#[derive(Drop)]
pub struct Entered {
    /// By its number.
    pub proc: usize,
    pub state: LinState,
}

/// Enters the procedure of a call, where there is one that takes the arguments; the state of the caller is then what it keeps while it waits.
pub fn enter(
    alloc: Global,
    program: &LinProgram,
    call: &Call,
    state: &mut LinState,
) -> Result<Option<Entered>, NoMemory>
    ensures { IfOk result (λ r. Enters r (enter (program_of program.now) call.now state.old) state.old state.new) }
{
    let Some(proc) = called(program, call.callee, state) else {
        return Ok(None);
    };
    let Some(procedure) = program.procedure(proc) else {
        return Ok(None);
    };
    let Some(arguments) = state.arguments(alloc, call)? else {
        return Ok(None);
    };
    if !takes(procedure, arguments.as_slice(), call.to) {
        return Ok(None);
    }
    let begun = LinState::begin(alloc, procedure.widths(), arguments.as_slice(), state.ram())?;
    state.forget_newest(call.pushed);
    Ok(Some(Entered { proc, state: begun }))
}

/// The state in which a procedure begins that gets no arguments, with these bytes in RAM.
pub fn wake(
    alloc: Global,
    program: &LinProgram,
    proc: usize,
    ram: &[u8],
) -> Result<LinState, NoMemory>
    ensures { IfOk result (λ s. s ≡ record { locals = begun (widths_of (slice_get program.now.procedures proc)) []; waiting = []; ram = ram.now }) }
{
    match program.procedure(proc) {
        Some(procedure) => LinState::begin(alloc, procedure.widths(), &[], ram),
        None => LinState::begin(alloc, &[], &[], ram),
    }
}

// The number of the procedure that a call calls.
fn called(program: &LinProgram, callee: Callee, state: &LinState) -> Option<usize>
    ensures { result ≡ called (program_of program.now) callee state.now }
{
    match callee {
        Callee::Procedure(number) => Some(usize::from(number)),
        Callee::Code(operand) => match state.value(operand) {
            Some(value) => program.at_code(value),
            None => None,
        },
    }
}

fn takes(procedure: &AnyProc, arguments: &[Held], to: Option<Target>) -> bool
    ensures { result ≡ takes procedure.now arguments.now to }
{
    arguments.len() == usize::from(procedure.params())
        && same_widths(procedure.widths(), arguments)
        && gives_to(procedure.result_width(), to)
}

fn same_widths(widths: &[u8], arguments: &[Held]) -> bool
    ensures { result ≡ same_widths widths.now arguments.now }
{
    match arguments {
        [] => true,
        [argument, more @ ..] => match widths {
            [] => false,
            [width, rest @ ..] => *width == argument.width() && same_widths(rest, more),
        },
    }
}

fn gives_to(width: u8, to: Option<Target>) -> bool
    ensures { result ≡ gives_to width to }
{
    match to {
        Some(target) => target.width == width,
        None => true,
    }
}
