// Values and locals.
ghost use Rattle.vg_core.specs.declared.step.Step.TheVariants as steps;
ghost use Rattle.vg_core.specs.Meaning as meaning;
ghost use Rattle.vg_interp_run.specs.Run.{state, uncalled, world, Answers, Kept};

use crate::run::Run;
use crate::signal::Signal;
use vg_core::{CoreValue, Tables};

/// The array of a literal.
pub fn literal(run: &mut Run, tables: &Tables, number: u32) -> Result<(), Signal>
    ensures answers { Answers result (state run.new) (world run.new) (meaning.step tables.now uncalled (steps.Literal number) (state run.old) (world run.old)) }
    ensures kept { Kept run.old run.new }
{
    match tables.literals.as_slice().get(number as usize) {
        Some(_) => run.push(CoreValue::Arr(number)),
        None => Err(Signal::Wrong),
    }
}

/// The receiver.
pub fn receiver(run: &mut Run, tables: &Tables) -> Result<(), Signal>
    ensures answers { Answers result (state run.new) (world run.new) (meaning.step tables.now uncalled steps.This (state run.old) (world run.old)) }
    ensures kept { Kept run.old run.new }
{
    run.push(run.receiver)
}

/// A method of a component, as a value.
pub fn component_method(run: &mut Run, tables: &Tables, method: u16) -> Result<(), Signal>
    ensures answers { Answers result (state run.new) (world run.new) (meaning.step tables.now uncalled (steps.ComponentMethod method) (state run.old) (world run.old)) }
    ensures kept { Kept run.old run.new }
{
    run.push(CoreValue::Bound(None, method))
}

/// The newest value is dropped.
pub fn forget(run: &mut Run, tables: &Tables) -> Result<(), Signal>
    ensures answers { Answers result (state run.new) (world run.new) (meaning.step tables.now uncalled steps.Forget (state run.old) (world run.old)) }
    ensures kept { Kept run.old run.new }
{
    run.pop()?;
    Ok(())
}
