// The pass from calls by name to calls by place.
ghost use Rattle.std.specs.Prelude.{◌≡◌, ℕ, ◌≤◌, length, map, IfOk};
ghost use Rattle.vg_meaning.specs.Code.{replaced};
ghost use Rattle.vg_toy.specs.Language.{place_of};
ghost use Rattle.vg_toy.specs.Renaming.{by_place, placed, placed_method, DoesTheSame};
ghost use Rattle.vg_toy.specs.Plain.{code_of, methods_of};

use crate::program::{Body, Program, Step};
use std::alloc::Global;
use vg_base::NoMemory;

/// The program with its calls by place: it does what this one does.
pub fn rename(alloc: Global, program: &Program) -> Result<Program, NoMemory>
    requires { length (methods_of program.now) ≤ 255 }
    ensures { IfOk result (λ p. DoesTheSame (methods_of program.now) (methods_of p)) }
{
    rename_methods(alloc, program, program)
}

// The place of the first method of this name, or the number of methods.
fn place(program: &Program, name: u8) -> u8
    requires { length (methods_of program.now) ≤ 255 }
    ensures place { result ≡ place_of (methods_of program.now) name }
    ensures within { result ≤ length (methods_of program.now) }
{
    match program {
        Program::Empty => 0,
        Program::More(first, _, rest) => {
            if *first == name {
                0
            } else {
                1 + place(rest, name)
            }
        }
    }
}

fn rename_step(program: &Program, step: Step) -> Step
    requires { length (methods_of program.now) ≤ 255 }
    ensures { result ≡ by_place (place_of (methods_of program.now)) step }
{
    match step {
        Step::Call(name) => Step::Call(place(program, name)),
        other => other,
    }
}

fn rename_body(alloc: Global, program: &Program, body: &Body) -> Result<Body, NoMemory>
    requires { length (methods_of program.now) ≤ 255 }
    ensures { IfOk result (λ b. code_of b ≡ replaced (placed (place_of (methods_of program.now))) (code_of body.now)) }
{
    Ok(match body {
        Body::Nothing => Body::Nothing,
        Body::Then(first, rest) => Body::Then(
            Box::new(alloc, rename_body(alloc, program, first)?)?,
            Box::new(alloc, rename_body(alloc, program, rest)?)?,
        ),
        Body::Do(step) => Body::Do(rename_step(program, *step)),
        Body::If(first, second) => Body::If(
            Box::new(alloc, rename_body(alloc, program, first)?)?,
            Box::new(alloc, rename_body(alloc, program, second)?)?,
        ),
        Body::Loop(condition, body, next) => Body::Loop(
            Box::new(alloc, rename_body(alloc, program, condition)?)?,
            Box::new(alloc, rename_body(alloc, program, body)?)?,
            Box::new(alloc, rename_body(alloc, program, next)?)?,
        ),
        Body::Break => Body::Break,
        Body::Continue => Body::Continue,
        Body::Return => Body::Return,
    })
}

// The methods of `rest`, whose calls name methods of `program`.
fn rename_methods(alloc: Global, program: &Program, rest: &Program) -> Result<Program, NoMemory>
    requires { length (methods_of program.now) ≤ 255 }
    ensures { IfOk result (λ p. methods_of p ≡ map (placed_method (place_of (methods_of program.now))) (methods_of rest.now)) }
{
    match rest {
        Program::Empty => Ok(Program::Empty),
        Program::More(name, body, others) => {
            let renamed = rename_body(alloc, program, body)?;
            let others = rename_methods(alloc, program, others)?;
            Ok(Program::More(*name, renamed, Box::new(alloc, others)?))
        }
    }
}
