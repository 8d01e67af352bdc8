// Initialisation.
ghost use Rattle.std.specs.Prelude.{◌≡◌, Option, Some};
ghost use Rattle.vg_meaning.specs.History.{depth_alone};
ghost use Rattle.vg_core.specs.HeldProgram.{program_at};
ghost use Rattle.vg_core.specs.Session as session;
ghost use Rattle.vg_core.specs.Session.{starting};
ghost use Rattle.vg_interp_run.specs.Run.{state, world, Answers};
ghost use Rattle.vg_interp_run.specs.Calling.{StaysUnder};
ghost use Rattle.vg_interp.specs.Running.{Shows};
ghost use Rattle.vg_interp_sessions.specs.Starts.{Starts};

use std::alloc::Global;
use vg_base::NoMemory;
use vg_core::{CoreValue, Program, Target};
use vg_interp::{Playing, call};
use vg_interp_run::{Around, Call, Run, Signal};
use vg_io::{NullSink, Sink};
use vg_shape::Store;

/// Initialises a program: its components in order of the text, in at most so many ticks.
pub fn init(alloc: Global, program: &Program, steps: u32) -> Result<Store, Signal>
    ensures { Starts result (starting depth_alone 0 (program_at program.now) steps) }
{
    let store = match Store::first(alloc, program) {
        Ok(store) => store,
        Err(NoMemory) => return Err(Signal::NoMemory),
    };
    if store.stored() > 60_000 {
        return Err(Signal::OutOfRoom);
    }
    let run = Run::new(alloc, store, Around::starting(alloc, steps));
    start(Playing::new(alloc, run), program)
}

// Initialises the components, and gives the heap.
fn start(play: Playing, program: &Program) -> Result<Store, Signal>
    ensures { Starts result (session.start_all depth_alone (program_at program.now) 0 program.now.tables.components (state play.run) (world play.run)) }
{
    let mut play = play;
    start_all(&mut play, program)?;
    Ok(play.run.store)
}

// Initialises the components one by one. They make no events.
fn start_all(play: &mut Playing, program: &Program) -> Result<(), Signal>
    ensures { Answers result (state play.new.run) (world play.new.run)
        (session.start_all depth_alone (program_at program.now) 0 program.now.tables.components (state play.old.run) (world play.old.run)) }
{
    let mut out = NullSink::new();
    let mut number = 0usize;
    for _name in program.tables.components.as_slice() {
        let Ok(component) = u16::try_from(number) else {
            // No text has so many components.
            return Err(Signal::NoMemory);
        };
        match call_alone(play, &mut out, program, Target::Start(component)) {
            Ok(()) => {}
            Err(why) => return Err(why),
        }
        number += 1;
    }
    Ok(())
}

/// Calls a target without arguments, and forgets its value.
pub fn call_alone<O: Sink>(
    play: &mut Playing,
    out: &mut O,
    program: &Program,
    target: Target,
) -> Result<(), Signal>
    ensures answers { Answers result (state play.new.run) (world play.new.run)
        (session.call_alone depth_alone (program_at program.now) target (state play.old.run) (world play.old.run)) }
    ensures kept { StaysUnder result play.old.run play.new.run }
    ensures puts { Shows (O.told out.old) (O.faults out.old) play.old (O.told out.new) (O.faults out.new) play.new
        (session.call_alone depth_alone (program_at program.now) target (state play.old.run) (world play.old.run)) }
{
    let most = play.run.around.clock();
    let alone = Call {
        target,
        count: 0,
        receiver: CoreValue::Null,
    };
    call(play, out, program, most, alone)?;
    play.run.pop()?;
    Ok(())
}
