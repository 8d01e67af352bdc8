// A walk over code.
ghost use Rattle.std.specs.Prelude.{◌≡◌, ◌++◌, IfOk, IfSome, MatchOption, OnOk, None, Some, slice_get};
ghost use Rattle.vg_core.specs.HeldProgram.{body_at, code_of, program_at};
ghost use Rattle.vg_live.specs.Uses as uses_of;
ghost use Rattle.vg_live.specs.Uses.{uses};
ghost use Rattle.vg_uses.specs.Walks.{all_uses};

use std::alloc::Global;
use vg_base::NoMemory;
use vg_core::{Body, Code, Program, Step};

/// The steps in the body of a method, in order; none where there is no such method.
pub fn steps_of(alloc: Global, program: &Program, method: u16) -> Result<Vec<Step>, NoMemory>
    ensures { IfOk result (λ v. v.items ≡ uses_of.steps_of (program_at program.now) method) }
{
    let mut steps = Vec::new(alloc);
    match body_of(program, method) {
        Some(body) => gather(&mut steps, &body.code)?,
        None => {}
    }
    Ok(steps)
}

// The body of a method.
fn body_of(program: &Program, method: u16) -> Option<&Body>
    ensures { MatchOption result (slice_get program.entry.now.methods method ≡ None) (λ found.
        slice_get program.entry.now.methods method ≡ Some found.now) }
{
    program.methods.as_slice().get(usize::from(method))
}

// Puts the steps of code behind those that are there.
#[cycle(gather)]
fn gather(steps: &mut Vec<Step>, code: &Code) -> Result<(), NoMemory>
    ensures { OnOk result (steps.new.items ≡ steps.old.items ++ uses (code_of code.now)) }
{
    match code {
        Code::Row(codes) => gather_all(steps, codes.as_slice()),
        Code::Chain(codes) => gather_all(steps, codes.as_slice()),
        Code::Do(step) => {
            steps.push(*step)?;
            Ok(())
        }
        Code::If(first, rest) => gather_two(steps, first, rest),
        Code::Arms(all, last) => {
            gather_all(steps, all.as_slice())?;
            gather(steps, last)
        }
        Code::Arm(condition, block) => gather_two(steps, condition, block),
        Code::Loop(condition, body, next) => {
            gather_two(steps, condition, body)?;
            gather(steps, next)
        }
        Code::Break => Ok(()),
        Code::Continue => Ok(()),
        Code::Return => Ok(()),
    }
}

// The steps of two codes.
#[cycle(gather)]
fn gather_two(steps: &mut Vec<Step>, first: &Code, rest: &Code) -> Result<(), NoMemory>
    ensures { OnOk result (steps.new.items ≡ steps.old.items ++ (uses (code_of first.now) ++ uses (code_of rest.now))) }
{
    gather(steps, first)?;
    gather(steps, rest)
}

// The steps of a row of codes.
#[cycle(gather)]
fn gather_all(steps: &mut Vec<Step>, codes: &[Code]) -> Result<(), NoMemory>
    ensures { OnOk result (steps.new.items ≡ steps.old.items ++ all_uses codes.now) }
{
    for code in codes {
        gather(steps, code)?;
    }
    Ok(())
}
