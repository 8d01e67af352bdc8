// One session on a script.
ghost use Rattle.std.specs.Prelude.{◌≡◌, ◌≤◌, ℕ, length, Some};
ghost use Rattle.vg_base.specs.Limits.{image_text_limit, text_limit};
ghost use Rattle.vg_io.specs.Count.{Rose};
ghost use Rattle.vg_core.specs.HeldProgram.{program_at};
ghost use Rattle.vg_core.specs.Session.{session};
ghost use Rattle.vg_core.specs.Typing.{WellTyped};
ghost use Rattle.vg_sound.specs.Good.{HasTypedHeap};
ghost use Rattle.vg_run.specs.Shown.{end_line, ending_in};
ghost use Rattle.vg_run.specs.Answer.{Plays};
ghost use Rattle.vg_run.specs.Mirrors.{PlaysRun, PlaysScript, run_end};

use std::alloc::Global;
use vg_base::Refusal;
use vg_core::Program;
use vg_faults::{Fault, INIT_STEPS};
use vg_front::started;
use vg_io::Sink;
use vg_script::{EndLine, Script, ScriptFault, put_ending, read_script};
use vg_session::{Session, SessionEnd};
use vg_shape::Store;

/// How a session ends.
#[derive(Clone, Copy, Debug, PartialEq, Eq)]
pub enum RunEnd {
    /// Main has returned, and no interrupt is left.
    Idle,
    /// An exception of this code.
    Stop(u8),
    /// A read of the device register at this address, where no read is left.
    Wants(u8),
    /// A tick was due, and the steps were spent.
    Budget,
    /// A 401st active call was opened.
    Depth,
}

/// How the command went.
#[derive(Drop)]
pub enum Played {
    /// The session has ended so, and all lines were put.
    Ended(RunEnd),
    /// A put failed. A front of the lines was put.
    WriteFault,
    /// The source text has this fault. Nothing was put.
    Refused(Fault),
    /// The line of this number is the script's first bad one. Nothing was put.
    ScriptRefused(u32),
    /// Want of memory. A front of the lines of the trace was put, or nothing.
    NoMemory,
}

/// Runs a source text on a script for at most so many ticks, and puts the lines of its trace and of its ending.
///
/// The source text has at most 262,144 bytes, and the script at most 1,048,576. The text is initialised in at most 1,000,000 ticks. A fault of the text
/// comes before one of the script.
pub fn play<O: Sink>(alloc: Global, text: &[u8], script: &[u8], steps: u32, out: &mut O) -> Played
    requires text { length text.now ≤ text_limit }
    requires script { length script.now ≤ image_text_limit }
    ensures plays { Plays result text.now script.now steps (O.told out.old) (O.told out.new) }
    ensures cause { result ≡ Played.WriteFault → Rose (O.faults out.old) (O.faults out.new) }
    ensures later { O.faults out.old ≤ O.faults out.new }
{
    match started(alloc, text, INIT_STEPS) {
        Err(Refusal::Fault(why)) => Played::Refused(why),
        Err(Refusal::NoMemory) => Played::NoMemory,
        Ok(start) => {
            let (program, heap) = start.into_program_and_heap();
            play_script(alloc, &program, heap, script, steps, out)
        }
    }
}

// The session of a program from its heap, on the script of these bytes.
fn play_script<O: Sink>(
    alloc: Global,
    program: &Program,
    heap: Store,
    script: &[u8],
    steps: u32,
    out: &mut O,
) -> Played
    requires script { length script.now ≤ image_text_limit }
    requires typed { WellTyped (program_at program.now) }
    requires heap { HasTypedHeap program.now.tables heap }
    ensures plays { PlaysScript result script.now
        (λ lists. session (program_at program.now) heap (Some 400) lists.reads lists.interrupts steps) (O.told out.old) (O.told out.new) }
    ensures cause { result ≡ Played.WriteFault → Rose (O.faults out.old) (O.faults out.new) }
    ensures later { O.faults out.old ≤ O.faults out.new }
{
    match read_script(alloc, script) {
        Err(ScriptFault::Form(line)) => Played::ScriptRefused(line),
        Err(ScriptFault::NoMemory) => Played::NoMemory,
        Ok(script) => play_run(Session::new(alloc, program, heap), &script, steps, out),
    }
}

// A session, with the line of its ending.
fn play_run<O: Sink>(run: Session<'_>, script: &Script, steps: u32, out: &mut O) -> Played
    requires typed { WellTyped (program_at run.program.now) }
    requires heap { HasTypedHeap run.program.now.tables run.heap }
    ensures plays { PlaysRun result (session (program_at run.entry.program.now) run.entry.heap (Some 400) script.now.reads script.now.interrupts steps)
        (O.told out.old) (O.told out.new) }
    ensures cause { result ≡ Played.WriteFault → Rose (O.faults out.old) (O.faults out.new) }
    ensures later { O.faults out.old ≤ O.faults out.new }
{
    match run_end(run.run(script, steps, out)) {
        Err(answer) => answer,
        Ok(end) => match put_ending(end_line(end), out) {
            Ok(()) => Played::Ended(end),
            Err(_) => Played::WriteFault,
        },
    }
}

// How a session ended, or the answer where there is no line of an ending to put.
fn run_end(end: SessionEnd) -> Result<RunEnd, Played>
    ensures { result ≡ run_end end }
{
    match end {
        SessionEnd::Idle => Ok(RunEnd::Idle),
        SessionEnd::Stop(code) => Ok(RunEnd::Stop(code)),
        SessionEnd::Wants(address) => Ok(RunEnd::Wants(address)),
        SessionEnd::Budget => Ok(RunEnd::Budget),
        SessionEnd::Depth => Ok(RunEnd::Depth),
        SessionEnd::SinkFailed => Err(Played::WriteFault),
        SessionEnd::NoMemory => Err(Played::NoMemory),
    }
}

// The line that is put for an ending.
fn end_line(end: RunEnd) -> EndLine
    ensures { result ≡ end_line (ending_in end) }
{
    match end {
        RunEnd::Idle => EndLine::Idle,
        RunEnd::Stop(code) => EndLine::Stop(code),
        RunEnd::Wants(address) => EndLine::Wants(address),
        RunEnd::Budget => EndLine::Budget,
        RunEnd::Depth => EndLine::Depth,
    }
}
