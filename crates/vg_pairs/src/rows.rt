// Rows of code.
ghost use Rattle.std.specs.Prelude.{◌≡◌, false, IfOk, OnOk};
ghost use Rattle.vg_core.specs.HeldProgram.{code_of, code_chain};
ghost use Rattle.vg_core.specs.declared.step.Step.{Step as CoreStep};
ghost use Rattle.vg_meaning.specs.Code.{Code as Structured, If, Nothing, Then};
ghost use Rattle.vg_pairs.specs.Pairs.{behind, paired, unpaired};
ghost use Rattle.vg_pairs.specs.Lists.{arms_list, Waiting, codes_list, is_arm};
ghost use Rattle.vg_pairs.specs.Items.{hides_arm, item_then};

use crate::item::Item;
use std::alloc::Global;
use vg_base::NoMemory;
use vg_core::{Code, CoreType, Prefix, Step};

/// One behind another. It takes no memory.
pub fn row_of(codes: Vec<Code>) -> Code
    ensures code { code_of result ≡ codes_list codes.items Nothing }
    ensures arm { is_arm result ≡ false }
{
    Code::Row(codes)
}

/// One behind another, of which the last ends it. It takes no memory.
pub fn chain_of(codes: Vec<Code>) -> Code
    ensures code { code_of result ≡ code_chain codes.items }
    ensures arm { is_arm result ≡ false }
{
    Code::Chain(codes)
}

/// Codes, arms among them, and what is done behind them all. It takes no memory.
pub fn arms_of(codes: Vec<Code>, last: Box<Code>) -> Code
    ensures code { code_of result ≡ arms_list codes.items (code_of last.value) }
    ensures arm { is_arm result ≡ false }
{
    Code::Arms(codes, last)
}

/// No code. It takes no memory.
pub fn nothing(alloc: Global) -> Code
    ensures code { code_of result ≡ Nothing }
    ensures arm { is_arm result ≡ false }
{
    row_of(Vec::new(alloc))
}

/// Puts code behind others, where it is no arm.
pub fn push_one(rows: &mut Vec<Code>, code: Code) -> Result<(), NoMemory>
    requires arm { is_arm code ≡ false }
    ensures row { OnOk result ((z : Structured CoreStep) → codes_list rows.new.items z ≡ codes_list rows.old.items (Then (code_of code) z)) }
    ensures arms { OnOk result ((z : Structured CoreStep) → arms_list rows.new.items z ≡ arms_list rows.old.items (Then (code_of code) z)) }
{
    rows.push(code)?;
    Ok(())
}

/// Puts an operator that waits behind others, where one does.
pub fn put_waiting(
    rows: &mut Vec<Code>,
    waiting: Option<(Prefix, CoreType)>,
) -> Result<(), NoMemory>
    ensures row { OnOk result ((z : Structured CoreStep) → codes_list rows.new.items z ≡ codes_list rows.old.items (behind waiting z)) }
    ensures arms { OnOk result ((z : Structured CoreStep) → arms_list rows.new.items z ≡ arms_list rows.old.items (behind waiting z)) }
{
    match waiting {
        Some((operator, type_)) => push_one(rows, Code::Do(Step::Apply(operator, type_))),
        None => Ok(()),
    }
}

/// Puts code without pairs behind others and behind an operator that may wait, where the code may be one operator itself: which operator waits
/// then.
pub fn push(
    alloc: Global,
    rows: &mut Vec<Code>,
    waiting: Option<(Prefix, CoreType)>,
    this: Option<(Prefix, CoreType)>,
    code: Code,
) -> Result<Option<(Prefix, CoreType)>, NoMemory>
    requires arm { is_arm code ≡ false }
    ensures row { IfOk result (λ o. (rest : Waiting → Structured CoreStep)
        → codes_list rows.new.items (rest o) ≡ codes_list rows.old.items (paired waiting this (code_of code) rest)) }
    ensures arms { IfOk result (λ o. (rest : Waiting → Structured CoreStep)
        → arms_list rows.new.items (rest o) ≡ arms_list rows.old.items (paired waiting this (code_of code) rest)) }
{
    match this {
        None => {
            put_waiting(rows, waiting)?;
            push_one(rows, code)?;
            Ok(None)
        }
        Some(operator) => match waiting {
            None => Ok(Some(operator)),
            Some(_) => {
                push_one(rows, nothing(alloc))?;
                Ok(None)
            }
        },
    }
}

/// The same of an arm, behind which none waits.
pub fn push_arm(
    alloc: Global,
    rows: &mut Vec<Code>,
    waiting: Option<(Prefix, CoreType)>,
    this: Option<(Prefix, CoreType)>,
    condition: Box<Code>,
    block: Box<Code>,
) -> Result<(), NoMemory>
    ensures { OnOk result ((z : Structured CoreStep) → arms_list rows.new.items z
        ≡ arms_list rows.old.items (paired waiting this (code_of condition.value) (λ v. behind v (If (code_of block.value) z)))) }
{
    match this {
        None => {
            put_waiting(rows, waiting)?;
            put_arm(rows, condition, block)
        }
        Some((operator, type_)) => match waiting {
            None => {
                let alone = Box::new(alloc, Code::Do(Step::Apply(operator, type_)))?;
                put_arm(rows, alone, block)
            }
            Some(_) => {
                let none = Box::new(alloc, nothing(alloc))?;
                put_arm(rows, none, block)
            }
        },
    }
}

// Puts an arm behind others.
fn put_arm(rows: &mut Vec<Code>, condition: Box<Code>, block: Box<Code>) -> Result<(), NoMemory>
    ensures { OnOk result ((z : Structured CoreStep) → arms_list rows.new.items z
        ≡ arms_list rows.old.items (Then (code_of condition.value) (If (code_of block.value) z))) }
{
    rows.push(Code::Arm(condition, block))?;
    Ok(())
}

/// The same of an arm, or of code that is none: which operator waits then.
pub fn push_item(
    alloc: Global,
    rows: &mut Vec<Code>,
    waiting: Option<(Prefix, CoreType)>,
    item: Item,
) -> Result<Option<(Prefix, CoreType)>, NoMemory>
    requires arm { hides_arm item ≡ false }
    ensures { IfOk result (λ o. (b : Structured CoreStep) → arms_list rows.new.items (unpaired o b) ≡ arms_list rows.old.items (item_then waiting item b)) }
{
    match item {
        Item::Plain(this, code) => push(alloc, rows, waiting, this, code),
        Item::Arm(this, condition, block) => {
            push_arm(alloc, rows, waiting, this, condition, block)?;
            Ok(None)
        }
    }
}
