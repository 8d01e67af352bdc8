// Code without pairs of operators.
ghost use Rattle.std.specs.Prelude.{◌≡◌, false, IfOk};
ghost use Rattle.vg_core.specs.HeldProgram.{code_of, code_chain, code_row};
ghost use Rattle.vg_core.specs.declared.step.Step.{Step as CoreStep};
ghost use Rattle.vg_meaning.specs.Code.{Code as Structured, If, Nothing, Then};
ghost use Rattle.vg_pairs.specs.Pairs as pairs;
ghost use Rattle.vg_pairs.specs.Lists.{arm_then, arms_list, Waiting, is_arm};
ghost use Rattle.vg_pairs.specs.Items.{hides_arm, item_then};

use crate::item::Item;
use crate::prefix::prefix_of;
use crate::rows::{arms_of, chain_of, nothing, push, push_arm, push_item, put_waiting, row_of};
use std::alloc::Global;
use vg_base::NoMemory;
use vg_core::{Code, CoreType, Prefix};

/// Code without each two operators before an operand, one behind the other; all else stays as it is.
pub fn without_pairs(alloc: Global, code: &Code) -> Result<Code, NoMemory>
    ensures { IfOk result (λ c. code_of c ≡ pairs.without_pairs (code_of code.now)) }
{
    unpaired(alloc, None, code)
}

// The same behind an operator that may wait to be done.
#[cycle(pairing)]
fn unpaired(
    alloc: Global,
    waiting: Option<(Prefix, CoreType)>,
    code: &Code,
) -> Result<Code, NoMemory>
    ensures code { IfOk result (λ c. code_of c ≡ pairs.unpaired waiting (code_of code.now)) }
    ensures arm { IfOk result (λ c. is_arm c ≡ false) }
{
    match code {
        Code::Row(codes) => row(alloc, waiting, codes.as_slice()),
        Code::Chain(codes) => chain(alloc, waiting, codes.as_slice()),
        Code::Arms(all, last) => {
            let (rows, left) = arms(alloc, waiting, all.as_slice())?;
            let end = boxed(alloc, left, last)?;
            Ok(arms_of(rows, end))
        }
        Code::Arm(condition, block) => {
            let single = boxed(alloc, None, condition)?;
            let block = boxed(alloc, None, block)?;
            one_arm(alloc, waiting, prefix_of(condition), single, block)
        }
        Code::Do(step) => behind(alloc, waiting, Code::Do(*step)),
        Code::If(first, rest) => {
            let first = boxed(alloc, None, first)?;
            let rest = boxed(alloc, None, rest)?;
            behind(alloc, waiting, Code::If(first, rest))
        }
        Code::Loop(condition, body, next) => {
            let condition = boxed(alloc, None, condition)?;
            let body = boxed(alloc, None, body)?;
            let next = boxed(alloc, None, next)?;
            behind(alloc, waiting, Code::Loop(condition, body, next))
        }
        Code::Break => behind(alloc, waiting, Code::Break),
        Code::Continue => behind(alloc, waiting, Code::Continue),
        Code::Return => behind(alloc, waiting, Code::Return),
    }
}

// The same in a box.
#[cycle(pairing)]
fn boxed(
    alloc: Global,
    waiting: Option<(Prefix, CoreType)>,
    code: &Code,
) -> Result<Box<Code>, NoMemory>
    ensures { IfOk result (λ b. code_of b.value ≡ pairs.unpaired waiting (code_of code.now)) }
{
    Ok(Box::new(alloc, unpaired(alloc, waiting, code)?)?)
}

// Code behind an operator that may wait.
fn behind(alloc: Global, waiting: Option<(Prefix, CoreType)>, code: Code) -> Result<Code, NoMemory>
    requires arm { is_arm code ≡ false }
    ensures code { IfOk result (λ c. code_of c ≡ pairs.behind waiting (code_of code)) }
    ensures arm { IfOk result (λ c. is_arm c ≡ false) }
{
    match waiting {
        Some(_) => {
            let mut rows = Vec::with_capacity(alloc, 1)?;
            put_waiting(&mut rows, waiting)?;
            let last = Box::new(alloc, code)?;
            Ok(arms_of(rows, last))
        }
        None => Ok(code),
    }
}

// Codes one behind another.
#[cycle(pairing)]
fn row(alloc: Global, waiting: Option<(Prefix, CoreType)>, codes: &[Code]) -> Result<Code, NoMemory>
    ensures code { IfOk result (λ c. code_of c ≡ pairs.unpaired waiting (code_row codes.now)) }
    ensures arm { IfOk result (λ c. is_arm c ≡ false) }
{
    let mut rows = Vec::with_capacity(alloc, codes.len())?;
    let mut left = waiting;
    for code in codes {
        let single = unpaired(alloc, None, code)?;
        left = push(alloc, &mut rows, left, prefix_of(code), single)?;
    }
    put_waiting(&mut rows, left)?;
    Ok(row_of(rows))
}

// Codes one behind another, of which the last is the end.
#[cycle(pairing)]
fn chain(
    alloc: Global,
    waiting: Option<(Prefix, CoreType)>,
    codes: &[Code],
) -> Result<Code, NoMemory>
    ensures code { IfOk result (λ c. code_of c ≡ pairs.unpaired waiting (code_chain codes.now)) }
    ensures arm { IfOk result (λ c. is_arm c ≡ false) }
{
    if codes.len() == 0 {
        return behind(alloc, waiting, nothing(alloc));
    }
    let end = codes.len() - 1;
    let mut rows = Vec::with_capacity(alloc, codes.len())?;
    let mut left = waiting;
    for index in 0..end {
        let single = unpaired(alloc, None, &codes[index])?;
        left = push(alloc, &mut rows, left, prefix_of(&codes[index]), single)?;
    }
    let last = unpaired(alloc, left, &codes[end])?;
    rows.push(last)?;
    Ok(chain_of(rows))
}

// The arms of an `if`, and which operator waits behind them.
#[cycle(pairing)]
fn arms(
    alloc: Global,
    waiting: Option<(Prefix, CoreType)>,
    codes: &[Code],
) -> Result<(Vec<Code>, Option<(Prefix, CoreType)>), NoMemory>
    ensures { IfOk result (λ x. (rest : Structured CoreStep) → arms_list x.0.items (pairs.unpaired x.1 rest)
        ≡ pairs.unpaired waiting (arms_list codes.now rest)) }
{
    let mut rows = Vec::with_capacity(alloc, codes.len())?;
    let mut left = waiting;
    for code in codes {
        let found = item(alloc, code)?;
        left = push_item(alloc, &mut rows, left, found)?;
    }
    Ok((rows, left))
}

// An arm, or code that is none.
#[cycle(pairing)]
fn item(alloc: Global, code: &Code) -> Result<Item, NoMemory>
    ensures item { IfOk result (λ d. (w : Waiting) (b : Structured CoreStep) → item_then w d b ≡ pairs.unpaired w (arm_then code.now b)) }
    ensures arm { IfOk result (λ d. hides_arm d ≡ false) }
{
    match code {
        Code::Arm(condition, block) => {
            let single = boxed(alloc, None, condition)?;
            let block = boxed(alloc, None, block)?;
            Ok(Item::Arm(prefix_of(condition), single, block))
        }
        _ => {
            let single = unpaired(alloc, None, code)?;
            Ok(Item::Plain(prefix_of(code), single))
        }
    }
}

// An arm that stands alone.
fn one_arm(
    alloc: Global,
    waiting: Option<(Prefix, CoreType)>,
    this: Option<(Prefix, CoreType)>,
    condition: Box<Code>,
    block: Box<Code>,
) -> Result<Code, NoMemory>
    ensures code { IfOk result (λ c. code_of c ≡ pairs.paired waiting this (code_of condition.value) (λ v. pairs.behind v (If (code_of block.value) Nothing))) }
    ensures arm { IfOk result (λ c. is_arm c ≡ false) }
{
    let mut rows = Vec::with_capacity(alloc, 2)?;
    push_arm(alloc, &mut rows, waiting, this, condition, block)?;
    let last = Box::new(alloc, nothing(alloc))?;
    Ok(arms_of(rows, last))
}
