// The code of choices.
ghost use Rattle.std.specs.Prelude.{◌≡◌, ◌+◌, ◌∷◌, length, IfOk};
ghost use Rattle.vg_flatten_shapes.specs.declared.open.Open.TheVariants.{Set};
ghost use Rattle.vg_flatten_shapes.specs.Blocks.{branch, choice_code, stop_where, open_code};
ghost use Rattle.vg_flatten_shapes.specs.Laying.{LaysCode};

use crate::fault::Fault;
use crate::open::{Open, Truth};
use crate::piece::{append, place_behind};
use std::alloc::Global;
use vg_base::{NoMemory, Refusal, Row};
use vg_lin::{Instr, Plain};

/// The branch to a place where the truth value is false.
pub fn branch(truth: Truth, to: u16) -> Instr
    ensures { result ≡ branch truth to }
{
    match truth {
        Truth::Holds(test) => Instr::Unless(test, to),
        Truth::Fails(test) => Instr::When(test, to),
    }
}

/// The code of a choice, from a place on, of the codes of both ways; the second way needs a jump before it where it has code.
pub fn choice(
    alloc: Global,
    at: u16,
    truth: Truth,
    first: &[Open],
    rest: &[Open],
) -> Result<Row<Open>, Refusal<Fault>>
    ensures { LaysCode result (at + 2 + length first.now + length rest.now) (choice_code truth at first.now rest.now) }
{
    let first_at = place_behind(at, 1)?;
    let jump_at = place_behind(first_at, first.len())?;
    if rest.len() == 0 {
        return Ok(choice_alone(alloc, truth, jump_at, first)?);
    }
    let rest_at = place_behind(jump_at, 1)?;
    let end = place_behind(rest_at, rest.len())?;
    let mut code = Row::new(alloc);
    code.push(Open::Set(branch(truth, rest_at)))?;
    let mut code = append(code, first)?;
    code.push(Open::Set(Instr::Jump(end)))?;
    Ok(append(code, rest)?)
}

/// The code of a choice of which one way has no code, with the place behind it.
fn choice_alone(
    alloc: Global,
    truth: Truth,
    end: u16,
    first: &[Open],
) -> Result<Row<Open>, NoMemory>
    ensures { IfOk result (λ code. code ≡ Set (branch truth end) ∷ first.now) }
{
    let mut code = Row::new(alloc);
    code.push(Open::Set(branch(truth, end)))?;
    append(code, first)
}

/// The run stops with an exception of this code where the truth value holds.
pub fn stop_where(
    alloc: Global,
    at: u16,
    code: u8,
    truth: Truth,
) -> Result<Row<Open>, Refusal<Fault>>
    ensures { LaysCode result (at + 3) (open_code (stop_where code truth) at) }
{
    let stop = [Open::Set(Instr::Plain(Plain::Stop(code)))];
    choice(alloc, at, truth, stop.as_slice(), &[])
}
