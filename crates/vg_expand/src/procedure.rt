// The pass over a procedure.
ghost use Rattle.std.specs.Prelude.{◌≡◌, ◌<◌, ◌≤◌, ◌*◌, true, length, get_or, IfOk};
ghost use Rattle.vg_lin.specs.Onward.{all_lead_on};
ghost use Rattle.vg_arith.specs.Simple.{are_simple};
ghost use Rattle.vg_expand.specs.Expansion.{Expands};
ghost use Rattle.vg_expand.specs.Flow.{calls_of};
ghost use Rattle.vg_expand.specs.Refusals.{IsRefusedFor};
ghost use Rattle.vg_expand.specs.Code.{expanded_code, expanded as expanded_procedure};

use crate::calls::push_instr;
use crate::places::places;
use crate::too_long::TooLong;
use std::alloc::Global;
use vg_base::{NoMemory, Refusal, Row};
use vg_lin::{Instr, LinProc};

/// The procedure with what does not need a routine in place of each product, division, remainder and shift by an amount that is not
/// known: a call of one, or shifts and sums. The routines have the numbers from the first one on.
///
/// It refuses code of which an instruction would get a place above 65,535, so none of at most 32,767 instructions.
pub fn expand(alloc: Global, proc: &LinProc, first: u16) -> Result<LinProc, Refusal<TooLong>>
    requires room { first < 65533 }
    ensures meaning { IfOk result (λ new. Expands first proc.now new) }
    ensures exactly { IfOk result (λ new. new ≡ expanded_procedure first proc.now) }
    ensures nothing_left { IfOk result (λ new. are_simple new.code ≡ true) }
    ensures calls { IfOk result (λ new. calls_of first new.code ≡ calls_of first proc.now.code) }
    ensures onwards { IfOk result (λ new. all_lead_on 0 proc.now.code ≡ true → all_lead_on 0 new.code ≡ true) }
    ensures size { IfOk result (λ new. length new.code ≤ 2 * length proc.now.code) }
    ensures refusal { IsRefusedFor result proc.now.code }
{
    proc.keeps();
    let code = code_of(alloc, proc, first)?;
    let widths = Row::from_slice(alloc, proc.widths())?;
    Ok(LinProc::new(
        proc.method(),
        proc.params(),
        proc.result_width(),
        widths,
        code,
    ))
}

fn code_of(alloc: Global, proc: &LinProc, first: u16) -> Result<Row<Instr>, Refusal<TooLong>>
    requires room { first < 65533 }
    ensures refusal { IsRefusedFor result proc.now.code }
    ensures code { IfOk result (λ code. code ≡ (expanded_procedure first proc.now).code) }
{
    let found = places(alloc, proc.code(), first, proc.widths())?;
    let new = expanded(alloc, proc.code(), found.as_slice(), first, proc.widths())?;
    Ok(new)
}

fn expanded(
    alloc: Global,
    code: &[Instr],
    places: &[u16],
    first: u16,
    widths: &[u8],
) -> Result<Row<Instr>, NoMemory>
    requires { first < 65533 }
    ensures { IfOk result (λ new. new ≡ expanded_code (record { first = first; widths = widths.now }) (λ to. get_or places.now to 0) code.now) }
{
    let mut new = Row::new(alloc);
    for instr in code {
        push_instr(&mut new, *instr, places, first, widths)?;
    }
    Ok(new)
}
