// Rows of packed code.
ghost use Rattle.std.specs.Prelude.{◌≡◌, false, IfOk};
ghost use Rattle.vg_firm.specs.Held as firm;
ghost use Rattle.vg_firm.specs.declared.step.Step.TheVariants.{LoadNothing};
ghost use Rattle.vg_meaning.specs.Code.{Do, Nothing};
ghost use Rattle.vg_packing.specs.Pass as pass;
ghost use Rattle.vg_pack_code.specs.Lists.{is_arm, packed_arms, packed_row};
ghost use Rattle.vg_pack_code.specs.Plans.{done};

use std::alloc::Global;
use vg_base::NoMemory;
use vg_firm::{Code, Step};

/// One behind another. It takes no memory.
pub fn row_of(codes: Vec<Code>) -> Code
    ensures code { firm.code_of result ≡ packed_row codes.items Nothing }
    ensures arm { is_arm result ≡ false }
{
    Code::Row(codes)
}

/// Codes, arms among them, and what is done behind them all. It takes no memory.
pub fn arms_of(codes: Vec<Code>, last: Box<Code>) -> Code
    ensures code { firm.code_of result ≡ packed_arms codes.items (firm.code_of last.value) }
    ensures arm { is_arm result ≡ false }
{
    Code::Arms(codes, last)
}

/// A step, or nothing. It takes no memory.
pub fn single(alloc: Global, step: Option<Step>) -> Code
    ensures code { firm.code_of result ≡ done step }
    ensures arm { is_arm result ≡ false }
{
    match step {
        Some(found) => Code::Do(found),
        None => Code::Row(Vec::new(alloc)),
    }
}

/// A call of the delegate below so many arguments. No method of a text has more than 60 parameters, so with more arguments null alone can be called:
/// they are dropped, and the null check stays.
pub fn call_value(alloc: Global, count: u16) -> Result<Code, NoMemory>
    ensures code { IfOk result (λ c. firm.code_of c ≡ pass.call_value count) }
    ensures arm { IfOk result (λ c. is_arm c ≡ false) }
{
    if count < 61 {
        Ok(single(alloc, Some(Step::CallValue(count as u8))))
    } else {
        null_call(alloc, count)
    }
}

// So many values are dropped, and then a null check.
fn null_call(alloc: Global, count: u16) -> Result<Code, NoMemory>
    ensures code { IfOk result (λ c. firm.code_of c ≡ pass.forgets count (Do LoadNothing)) }
    ensures arm { IfOk result (λ c. is_arm c ≡ false) }
{
    let mut rows = Vec::with_capacity(alloc, usize::from(count))?;
    for index in 0..count {
        rows.push(Code::Do(Step::Forget))?;
    }
    let last = Box::new(alloc, Code::Do(Step::LoadNothing))?;
    Ok(arms_of(rows, last))
}
