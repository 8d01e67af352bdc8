// Main, and the interrupts behind it.
ghost use Rattle.std.specs.Prelude.{◌≡◌, length};
ghost use Rattle.vg_meaning.specs.Answer.{and_then};
ghost use Rattle.vg_meaning.specs.History.{depth_alone};
ghost use Rattle.vg_meaning.specs.Interrupts.{idles, take_interrupt};
ghost use Rattle.vg_core.specs.declared.program.Target.TheVariants as targets;
ghost use Rattle.vg_core.specs.HeldProgram.{program_at};
ghost use Rattle.vg_core.specs.Session as session;
ghost use Rattle.vg_interp_run.specs.Run.{state, world, Answers};
ghost use Rattle.vg_interp.specs.Running.{Shows};

use crate::initialisation::call_alone;
use vg_core::{Handler, Program, Target};
use vg_interp::Playing;
use vg_interp_run::Signal;
use vg_io::Sink;

/// Calls main, and then takes the interrupts until none is left.
pub fn go<O: Sink>(play: &mut Playing, out: &mut O, program: &Program) -> Result<(), Signal>
    ensures answers { Answers result (state play.new.run) (world play.new.run)
        (and_then (session.call_alone depth_alone (program_at program.now) (targets.Run program.now.main) (state play.old.run) (world play.old.run))
        (idles (length (world play.old.run).outside.interrupts) (session.handle depth_alone (program_at program.now)))) }
    ensures puts { Shows (O.told out.old) (O.faults out.old) play.old (O.told out.new) (O.faults out.new) play.new
        (and_then (session.call_alone depth_alone (program_at program.now) (targets.Run program.now.main) (state play.old.run) (world play.old.run))
        (idles (length (world play.old.run).outside.interrupts) (session.handle depth_alone (program_at program.now)))) }
{
    let count = play.run.around.interrupts_left();
    match call_alone(play, out, program, Target::Run(program.main)) {
        Ok(()) => idle(play, out, program, count),
        Err(why) => Err(why),
    }
}

// Takes so many interrupts, and one more.
fn idle<O: Sink>(
    play: &mut Playing,
    out: &mut O,
    program: &Program,
    count: usize,
) -> Result<(), Signal>
    ensures answers { Answers result (state play.new.run) (world play.new.run)
        (idles count (session.handle depth_alone (program_at program.now)) (state play.old.run) (world play.old.run)) }
    ensures puts { Shows (O.told out.old) (O.faults out.old) play.old (O.told out.new) (O.faults out.new) play.new
        (idles count (session.handle depth_alone (program_at program.now)) (state play.old.run) (world play.old.run)) }
{
    for _turn in 0..count {
        match take(play, out, program) {
            Ok(()) => {}
            Err(why) => return Err(why),
        }
    }
    take(play, out, program)
}

/// Takes the next interrupt, and calls its handler, where it has one. Where many events wait, their lines are put before.
pub fn take<O: Sink>(play: &mut Playing, out: &mut O, program: &Program) -> Result<(), Signal>
    ensures answers { Answers result (state play.new.run) (world play.new.run)
        (take_interrupt (session.handle depth_alone (program_at program.now)) (state play.old.run) (world play.old.run)) }
    ensures puts { Shows (O.told out.old) (O.faults out.old) play.old (O.told out.new) (O.faults out.new) play.new
        (take_interrupt (session.handle depth_alone (program_at program.now)) (state play.old.run) (world play.old.run)) }
{
    play.offer(out)?;
    let vector = play.run.around.interrupt()?;
    handle(play, out, program, vector)
}

// Calls the handler of a vector, where there is one.
fn handle<O: Sink>(
    play: &mut Playing,
    out: &mut O,
    program: &Program,
    vector: u8,
) -> Result<(), Signal>
    ensures answers { Answers result (state play.new.run) (world play.new.run)
        (session.handle depth_alone (program_at program.now) vector (state play.old.run) (world play.old.run)) }
    ensures puts { Shows (O.told out.old) (O.faults out.old) play.old (O.told out.new) (O.faults out.new) play.new
        (session.handle depth_alone (program_at program.now) vector (state play.old.run) (world play.old.run)) }
{
    match handler_of(program.handlers.as_slice(), vector) {
        Some(method) => call_alone(play, out, program, Target::Run(method)),
        None => Ok(()),
    }
}

// The method that handles a vector.
fn handler_of(handlers: &[Handler], vector: u8) -> Option<u16>
    ensures { result ≡ session.handler_of handlers.now vector }
{
    for handler in handlers {
        if handler.vector == vector {
            return Some(handler.method);
        }
    }
    None
}
