// Trimmed procedures.
ghost use Rattle.std.specs.Prelude.{◌≡◌, ◌≤◌, length, IfOk, IsTrue};
ghost use Rattle.vg_trimming.specs.Trimmed.{IsTrimmedTo, AreAllTrimmed};
ghost use Rattle.vg_apt.specs.Apt.{AllKeepApt, AreApt, KeepsApt};
ghost use Rattle.vg_trim.specs.Looked.{IsLookedAt, AreNoLonger};

use crate::looking::trims;
use std::alloc::Global;
use vg_apt::is_apt_code;
use vg_base::{NoMemory, Row};
use vg_lin::{Instr, LinProc};
use vg_trim_plan::{Effort, Plan, plan};

/// The procedure with less to do, where a guess was right; or else as it was.
pub fn trim(alloc: Global, old: &LinProc) -> Result<LinProc, NoMemory>
    ensures trimmed { IfOk result (λ new. IsTrimmedTo old.now new) }
    ensures short { IfOk result (λ new. length new.code ≤ length old.now.code) }
    ensures apt { IfOk result (KeepsApt old.now) }
{
    let ranging = plan(alloc, old, Effort::Ranging)?;
    if stands(old, &ranging) {
        return Ok(trimmed(old, ranging));
    }
    let leading = plan(alloc, old, Effort::Leading)?;
    if stands(old, &leading) {
        return Ok(trimmed(old, leading));
    }
    let keeping = plan(alloc, old, Effort::Keeping)?;
    if stands(old, &keeping) {
        return Ok(trimmed(old, keeping));
    }
    let careful = plan(alloc, old, Effort::Careful)?;
    if stands(old, &careful) {
        Ok(trimmed(old, careful))
    } else {
        copy(alloc, old)
    }
}

// Whether a guess stands for a procedure, and asks for no more than flattened code does.
fn stands(old: &LinProc, guess: &Plan) -> bool
    ensures looked { IsTrue result → IsLookedAt old.now guess.now.widths guess.now.code guess.now.facts guess.now.places }
    ensures apt { IsTrue result → AreApt guess.now.code }
{
    trims(old, guess) && is_apt_code(guess.code.as_slice())
}

/// The procedures with less to do, one for one.
pub fn trim_all(alloc: Global, procedures: &[LinProc]) -> Result<Row<LinProc>, NoMemory>
    ensures trimmed { IfOk result (λ new. AreAllTrimmed procedures.now new) }
    ensures short { IfOk result (λ new. AreNoLonger procedures.now new) }
    ensures apt { IfOk result (λ new. AllKeepApt procedures.now new) }
{
    let mut row = Row::new(alloc);
    for procedure in procedures {
        match trim(alloc, procedure) {
            Ok(new) => row.push(new)?,
            Err(why) => return Err(why),
        }
    }
    Ok(row)
}

/// The procedures as they are, one for one.
pub fn keep_all(alloc: Global, procedures: &[LinProc]) -> Result<Row<LinProc>, NoMemory>
    ensures same { IfOk result (λ new. new ≡ procedures.now) }
    ensures trimmed { IfOk result (λ new. AreAllTrimmed procedures.now new) }
    ensures short { IfOk result (λ new. AreNoLonger procedures.now new) }
    ensures apt { IfOk result (λ new. AllKeepApt procedures.now new) }
{
    let mut row = Row::new(alloc);
    for procedure in procedures {
        match copy(alloc, procedure) {
            Ok(new) => row.push(new)?,
            Err(why) => return Err(why),
        }
    }
    Ok(row)
}

// The procedure of a guess that stands.
fn trimmed(old: &LinProc, guess: Plan) -> LinProc
    requires looked { IsLookedAt old.now guess.widths guess.code guess.facts guess.places }
    requires apt { AreApt guess.code }
    ensures trimmed { IsTrimmedTo old.now result }
    ensures short { length result.code ≤ length old.now.code }
    ensures apt { KeepsApt old.now result }
{
    old.keeps();
    LinProc::new(
        old.method(),
        old.params(),
        old.result_width(),
        guess.widths,
        guess.code,
    )
}

// The procedure as it is.
fn copy(alloc: Global, old: &LinProc) -> Result<LinProc, NoMemory>
    ensures same { IfOk result (λ new. new ≡ old.now) }
    ensures trimmed { IfOk result (λ new. IsTrimmedTo old.now new) }
    ensures short { IfOk result (λ new. length new.code ≤ length old.now.code) }
    ensures apt { IfOk result (KeepsApt old.now) }
{
    old.keeps();
    let widths = Row::from_slice(alloc, old.widths())?;
    let code = copied(alloc, old.code())?;
    Ok(LinProc::new(old.method(), old.params(), old.result_width(), widths, code))
}

fn copied(alloc: Global, code: &[Instr]) -> Result<Row<Instr>, NoMemory>
    ensures { IfOk result (λ row. row ≡ code.now) }
{
    Ok(Row::from_vec(Vec::from_slice(alloc, code)?))
}
