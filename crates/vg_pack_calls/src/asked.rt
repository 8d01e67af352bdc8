// What is asked for by dispatch.
ghost use Rattle.std.specs.Prelude.{◌≡◌, ◌<◌, ◌++◌, [], IfOk, OnOk, length};
ghost use Rattle.vg_core.specs.HeldProgram.{program_at};
ghost use Rattle.vg_live.specs.Uses as uses;
ghost use Rattle.vg_pack_calls.specs.Asked.{asked_view, asked_from, is_there, steps_from, steps_if, with_asked};

use std::alloc::Global;
use vg_base::{NoMemory, Row};
use vg_core::{Program, Step};
use vg_live::Reason;
use vg_number::is_kept;
use vg_pack_code::Asked;
use vg_uses::steps_of;

/// The steps that stand in live methods, in order of the text.
pub fn live_steps(
    alloc: Global,
    program: &Program,
    live: &[Option<Reason>],
) -> Result<Vec<Step>, NoMemory>
    requires { length live.now < 65536 }
    ensures { IfOk result (λ v. v.items ≡ steps_from (program_at program.now) 0 live.now) }
{
    let mut steps = Vec::new(alloc);
    for index in 0..live.len() {
        push_steps(
            alloc,
            &mut steps,
            program,
            is_kept(live, index),
            index as u16,
        )?;
    }
    Ok(steps)
}

// Puts the steps of a method behind others, where it is live.
fn push_steps(
    alloc: Global,
    steps: &mut Vec<Step>,
    program: &Program,
    live: bool,
    method: u16,
) -> Result<(), NoMemory>
    ensures { OnOk result (steps.new.items ≡ steps.old.items ++ steps_if (program_at program.now) live method) }
{
    if live {
        let more = steps_of(alloc, program, method)?;
        append(steps, more.as_slice())?;
    }
    Ok(())
}

// Puts steps behind others.
fn append(steps: &mut Vec<Step>, more: &[Step]) -> Result<(), NoMemory>
    ensures { OnOk result (steps.new.items ≡ steps.old.items ++ more.now) }
{
    for step in more {
        steps.push(*step)?;
    }
    Ok(())
}

/// The pairs of a class and a selector for which these steps ask, each once, in order of the first step.
pub fn asked_by(alloc: Global, steps: &[Step]) -> Result<Row<Asked>, NoMemory>
    ensures { IfOk result (λ rows. rows ≡ asked_from [] steps.now) }
{
    let mut rows = Row::new(alloc);
    for step in steps {
        note(&mut rows, *step)?;
    }
    Ok(rows)
}

// Notes what a step asks for.
fn note(rows: &mut Row<Asked>, step: Step) -> Result<(), NoMemory>
    ensures { OnOk result (rows.new ≡ with_asked rows.old (uses.asked step)) }
{
    match step {
        Step::CallMethod(_, class, selector, _) => note_pair(rows, class, selector),
        Step::MethodOf(_, class, selector) => note_pair(rows, class, selector),
        _ => Ok(()),
    }
}

// Puts a class and a selector behind the others, unless it is among them.
fn note_pair(rows: &mut Row<Asked>, class: u16, selector: u16) -> Result<(), NoMemory>
    ensures { OnOk result (rows.new ≡ with_asked rows.old (asked_view class selector)) }
{
    if is_there(rows.as_slice(), class, selector) {
        return Ok(());
    }
    rows.push(Asked { class, selector })
}

// Whether a class and a selector are among these.
fn is_there(asked: &[Asked], class: u16, selector: u16) -> bool
    ensures { result ≡ is_there asked.now class selector }
{
    for one in asked {
        if one.class == class && one.selector == selector {
            return true;
        }
    }
    false
}
