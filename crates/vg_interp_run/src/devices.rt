// Device registers.
ghost use Rattle.vg_core.specs.declared.step.Step.TheVariants as steps;
ghost use Rattle.vg_core.specs.Meaning as meaning;
ghost use Rattle.vg_interp_run.specs.Run.{state, uncalled, world, Answers, Kept};

use crate::run::Run;
use crate::signal::Signal;
use vg_core::{CoreValue, Tables};

/// A read of the device register at this address.
pub fn register(run: &mut Run, tables: &Tables, address: u8) -> Result<(), Signal>
    ensures answers { Answers result (state run.new) (world run.new) (meaning.step tables.now uncalled (steps.Register address) (state run.old) (world run.old)) }
    ensures kept { Kept run.old run.new }
{
    let value = run.around.read(address)?;
    run.push(CoreValue::Raw(8, value as u32))
}

/// A write of the device register at this address.
pub fn set_register(run: &mut Run, tables: &Tables, address: u8) -> Result<(), Signal>
    ensures answers { Answers result (state run.new) (world run.new) (meaning.step tables.now uncalled (steps.SetRegister address) (state run.old) (world run.old)) }
    ensures kept { Kept run.old run.new }
{
    match run.pop()? {
        CoreValue::Raw(width, bits) => {
            if width != 8 {
                return Err(Signal::Wrong);
            }
            match u8::try_from(bits) {
                Ok(value) => run.around.write(address, value),
                // Eight bits are a byte: no text has other ones.
                Err(_) => Err(Signal::NoMemory),
            }
        }
        CoreValue::Int(_)
        | CoreValue::Bool(_)
        | CoreValue::Char(_)
        | CoreValue::Null
        | CoreValue::Obj(_)
        | CoreValue::Arr(_)
        | CoreValue::Bound(_, _) => Err(Signal::Wrong),
    }
}
