// What stands for code.
ghost use Rattle.std.specs.Prelude.{◌≡◌, ◌<◌, length, false, IfOk};
ghost use Rattle.vg_core.specs.HeldProgram.{code_of, code_chain, code_row};
ghost use Rattle.vg_core.specs.declared.step.Step.{Step as CoreStep};
ghost use Rattle.vg_firm.specs.Held as firm;
ghost use Rattle.vg_meaning.specs.Code.{Code as Structured, If, Nothing, Then, replaced};
ghost use Rattle.vg_pack_code.specs.Lists.{arm_then, arms_list, is_arm, packed_arm, packed_arms};
ghost use Rattle.vg_pack_code.specs.Plans.{moved};

use crate::plan::Plan;
use crate::rows::{arms_of, call_value, row_of, single};
use crate::steps::{delegate_arguments, step_for};
use std::alloc::Global;
use vg_base::NoMemory;
use vg_core::{Code, Step, Tables};
use vg_number::Numbers;

/// What stands for code: each step is replaced, and all else stays as it is.
///
/// An arm that stands alone becomes an `if` with one arm, so that a row of arms may hold any other code.
#[cycle(packing)]
pub fn packed_code(
    alloc: Global,
    tables: &Tables,
    numbers: &Numbers,
    plan: &Plan,
    code: &Code,
) -> Result<vg_firm::Code, NoMemory>
    requires asked { length plan.now.asked < 4294967296 }
    ensures code { IfOk result (λ c. firm.code_of c ≡ replaced (moved tables.now numbers.now plan.now) (code_of code.now)) }
    ensures arm { IfOk result (λ c. is_arm c ≡ false) }
{
    match code {
        Code::Row(codes) => row(alloc, tables, numbers, plan, codes.as_slice()),
        Code::Chain(codes) => chain(alloc, tables, numbers, plan, codes.as_slice()),
        Code::Do(step) => step_code(alloc, tables, numbers, plan, *step),
        Code::If(first, rest) => {
            let first = boxed(alloc, tables, numbers, plan, first)?;
            let rest = boxed(alloc, tables, numbers, plan, rest)?;
            Ok(vg_firm::Code::If(first, rest))
        }
        Code::Arms(all, last) => {
            let rows = arms(alloc, tables, numbers, plan, all.as_slice())?;
            let end = boxed(alloc, tables, numbers, plan, last)?;
            Ok(arms_of(rows, end))
        }
        Code::Arm(condition, block) => {
            let condition = boxed(alloc, tables, numbers, plan, condition)?;
            let block = boxed(alloc, tables, numbers, plan, block)?;
            one_arm(alloc, condition, block)
        }
        Code::Loop(condition, body, next) => {
            let condition = boxed(alloc, tables, numbers, plan, condition)?;
            let body = boxed(alloc, tables, numbers, plan, body)?;
            let next = boxed(alloc, tables, numbers, plan, next)?;
            Ok(vg_firm::Code::Loop(condition, body, next))
        }
        Code::Break => Ok(vg_firm::Code::Break),
        Code::Continue => Ok(vg_firm::Code::Continue),
        Code::Return => Ok(vg_firm::Code::Return),
    }
}

// What stands for a step.
fn step_code(
    alloc: Global,
    tables: &Tables,
    numbers: &Numbers,
    plan: &Plan,
    step: Step,
) -> Result<vg_firm::Code, NoMemory>
    requires asked { length plan.now.asked < 4294967296 }
    ensures code { IfOk result (λ c. firm.code_of c ≡ moved tables.now numbers.now plan.now step) }
    ensures arm { IfOk result (λ c. is_arm c ≡ false) }
{
    match delegate_arguments(step) {
        Some(count) => call_value(alloc, count),
        None => Ok(single(alloc, step_for(tables, numbers, plan, step))),
    }
}

// The same in a box.
#[cycle(packing)]
fn boxed(
    alloc: Global,
    tables: &Tables,
    numbers: &Numbers,
    plan: &Plan,
    code: &Code,
) -> Result<Box<vg_firm::Code>, NoMemory>
    requires asked { length plan.now.asked < 4294967296 }
    ensures { IfOk result (λ b. firm.code_of b.value ≡ replaced (moved tables.now numbers.now plan.now) (code_of code.now)) }
{
    Ok(Box::new(alloc, packed_code(alloc, tables, numbers, plan, code)?)?)
}

// Codes one behind another.
#[cycle(packing)]
fn row(
    alloc: Global,
    tables: &Tables,
    numbers: &Numbers,
    plan: &Plan,
    codes: &[Code],
) -> Result<vg_firm::Code, NoMemory>
    requires asked { length plan.now.asked < 4294967296 }
    ensures code { IfOk result (λ c. firm.code_of c ≡ replaced (moved tables.now numbers.now plan.now) (code_row codes.now)) }
    ensures arm { IfOk result (λ c. is_arm c ≡ false) }
{
    let mut rows = Vec::with_capacity(alloc, codes.len())?;
    for code in codes {
        let packed = packed_code(alloc, tables, numbers, plan, code)?;
        rows.push(packed)?;
    }
    Ok(row_of(rows))
}

// Codes one behind another, of which the last is the end.
#[cycle(packing)]
fn chain(
    alloc: Global,
    tables: &Tables,
    numbers: &Numbers,
    plan: &Plan,
    codes: &[Code],
) -> Result<vg_firm::Code, NoMemory>
    requires asked { length plan.now.asked < 4294967296 }
    ensures code { IfOk result (λ c. firm.code_of c ≡ replaced (moved tables.now numbers.now plan.now) (code_chain codes.now)) }
    ensures arm { IfOk result (λ c. is_arm c ≡ false) }
{
    if codes.len() == 0 {
        return Ok(single(alloc, None));
    }
    let end = codes.len() - 1;
    let mut rows = Vec::with_capacity(alloc, end)?;
    for index in 0..end {
        let packed = packed_code(alloc, tables, numbers, plan, &codes[index])?;
        rows.push(packed)?;
    }
    let last = boxed(alloc, tables, numbers, plan, &codes[end])?;
    Ok(arms_of(rows, last))
}

// The arms of an `if`.
#[cycle(packing)]
fn arms(
    alloc: Global,
    tables: &Tables,
    numbers: &Numbers,
    plan: &Plan,
    codes: &[Code],
) -> Result<Vec<vg_firm::Code>, NoMemory>
    requires asked { length plan.now.asked < 4294967296 }
    ensures { IfOk result (λ v. (rest : Structured CoreStep) → packed_arms v.items (replaced (moved tables.now numbers.now plan.now) rest)
        ≡ replaced (moved tables.now numbers.now plan.now) (arms_list codes.now rest)) }
{
    let mut rows = Vec::with_capacity(alloc, codes.len())?;
    for code in codes {
        let packed = arm(alloc, tables, numbers, plan, code)?;
        rows.push(packed)?;
    }
    Ok(rows)
}

// An arm, or code that is none, before others.
#[cycle(packing)]
fn arm(
    alloc: Global,
    tables: &Tables,
    numbers: &Numbers,
    plan: &Plan,
    code: &Code,
) -> Result<vg_firm::Code, NoMemory>
    requires asked { length plan.now.asked < 4294967296 }
    ensures { IfOk result (λ c. (rest : Structured CoreStep) → packed_arm c (replaced (moved tables.now numbers.now plan.now) rest)
        ≡ replaced (moved tables.now numbers.now plan.now) (arm_then code.now rest)) }
{
    match code {
        Code::Arm(condition, block) => {
            let condition = boxed(alloc, tables, numbers, plan, condition)?;
            let block = boxed(alloc, tables, numbers, plan, block)?;
            Ok(vg_firm::Code::Arm(condition, block))
        }
        _ => packed_code(alloc, tables, numbers, plan, code),
    }
}

// An arm that stands alone.
fn one_arm(
    alloc: Global,
    condition: Box<vg_firm::Code>,
    block: Box<vg_firm::Code>,
) -> Result<vg_firm::Code, NoMemory>
    ensures code { IfOk result (λ c. firm.code_of c ≡ Then (firm.code_of condition.value) (If (firm.code_of block.value) Nothing)) }
    ensures arm { IfOk result (λ c. is_arm c ≡ false) }
{
    let mut rows = Vec::with_capacity(alloc, 1)?;
    rows.push(vg_firm::Code::Arm(condition, block))?;
    let last = Box::new(alloc, single(alloc, None))?;
    Ok(arms_of(rows, last))
}
