// Code that is put together.
ghost use Rattle.std.specs.Prelude.{◌≡◌, ℕ, List, IfOk};
ghost use Rattle.vg_meaning.specs.Code.{Code as MeantCode, Then, If, Loop};
ghost use Rattle.vg_core.specs.declared.step.Step.{Step};
ghost use Rattle.vg_core.specs.HeldProgram.{code_of};
ghost use Rattle.vg_types_statements.specs.Arms.{before_arms, before_named, code_arms};
ghost use Rattle.vg_source.specs.Steps.{Step as SourceStep};
ghost use Rattle.vg_types_tables.specs.declared.declared.Declared.{Declared};
ghost use Rattle.vg_types_tables.specs.Views.{code_view};

use std::alloc::Global;
use vg_base::NoMemory;
use vg_core::Code;

/// A loop: its condition, its body, and what is done behind the body.
pub(crate) fn a_loop(
    alloc: Global,
    condition: Code,
    body: Code,
    next: Code,
) -> Result<Code, NoMemory>
    ensures { IfOk result (λ c. code_of c ≡ Loop (code_of condition) (code_of body) (code_of next)) }
{
    Ok(Code::Loop(
        Box::new(alloc, condition)?,
        Box::new(alloc, body)?,
        Box::new(alloc, next)?,
    ))
}

/// An arm: its condition, and what is done where it holds.
pub(crate) fn an_arm(alloc: Global, condition: Code, block: Code) -> Result<Code, NoMemory>
    ensures code { IfOk result (λ c. (rest : MeantCode Step) → before_arms c rest ≡ Then (code_of condition) (If (code_of block) rest)) }
    ensures named { IfOk result (λ c. (texts : List (List ℕ)) (d : Declared) (rest : MeantCode SourceStep)
        → before_named texts d c rest ≡ Then (code_view texts d condition) (If (code_view texts d block) rest)) }
{
    Ok(Code::Arm(Box::new(alloc, condition)?, Box::new(alloc, block)?))
}

/// The arms of an `if`, and what is done where no condition holds.
pub(crate) fn all_arms(alloc: Global, arms: Vec<Code>, last: Code) -> Result<Code, NoMemory>
    ensures { IfOk result (λ c. code_of c ≡ code_arms arms.items (code_of last)) }
{
    Ok(Code::Arms(arms, Box::new(alloc, last)?))
}
