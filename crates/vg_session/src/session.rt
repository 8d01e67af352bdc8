// Sessions.
ghost use Rattle.std.specs.Prelude.{◌≡◌, ◌≤◌, ℕ, List, Option, Err, IfOk};
ghost use Rattle.vg_core.specs.HeldProgram.{program_at};
ghost use Rattle.vg_core.specs.Typing.{WellTyped};
ghost use Rattle.vg_sound.specs.Good.{HasTypedHeap};
ghost use Rattle.vg_meaning.specs.declared.event.Event.{Event};
ghost use Rattle.vg_interp_run.specs.Run.{world};
ghost use Rattle.vg_outlet.specs.Puts.{moment, IsPut};
ghost use Rattle.vg_session.specs.Ends.{session_on, Causes, EndsAs, Puts};
ghost use Rattle.vg_session.specs.Playing.{CanEnd, EndsBy, HasMemory, IsEndOf, Lacks, Leaves};

use std::alloc::Global;
use vg_base::NoMemory;
use vg_core::Program;
use vg_interp::Playing;
use vg_interp_run::{Around, Run, Signal};
use vg_interp_sessions::go;
use vg_io::Sink;
use vg_script::Script;
use vg_shape::Store;

/// How a session ends.
#[derive(Clone, Copy, Debug, PartialEq, Eq)]
pub enum SessionEnd {
    /// Main has returned, and no interrupt is left.
    Idle,
    /// An exception of this code.
    Stop(u8),
    /// A read of the device register at this address, where no read is left.
    Wants(u8),
    /// A tick was due, and the budget was spent.
    Budget,
    /// A 401st call was opened.
    Depth,
    /// A put failed.
    SinkFailed,
    /// Want of memory.
    NoMemory,
}

/// A session that is to be run: its program, and the heap that it begins with.
#[derive(Drop)]
pub struct Session<'a> {
    pub alloc: Global,
    pub program: &'a Program,
    pub heap: Store,
}

impl<'a> Session<'a> {
    /// A session of a program from a heap. It takes no memory.
    pub fn new(alloc: Global, program: &'a Program, heap: Store) -> Self
        ensures program { result.program.now ≡ program.now }
        ensures heap { result.heap ≡ heap }
    {
        Session {
            alloc,
            program,
            heap,
        }
    }

    /// Runs main, and then the handler of each interrupt of the script, in at most so many ticks and with at most 400 active calls, and
    /// puts the lines of the trace: while it runs, 512 in one put, and those that are left at its end. A put that fails ends it.
    pub fn run<O: Sink>(self, script: &Script, budget: u32, sink: &mut O) -> SessionEnd
        requires typed { WellTyped (program_at self.program.now) }
        requires heap { HasTypedHeap self.program.now.tables self.heap }
        ensures ended { EndsAs result (session_on self.entry.program.now self.entry.heap script.now budget).ending }
        ensures lines { Puts result (O.told sink.old) (O.told sink.new) (session_on self.entry.program.now self.entry.heap script.now budget).trace }
        ensures cause { Causes result (O.faults sink.old) (O.faults sink.new) }
        ensures later { O.faults sink.old ≤ O.faults sink.new }
    {
        let Ok(reads) = copied(self.alloc, script.reads()) else {
            return SessionEnd::NoMemory;
        };
        let Ok(interrupts) = copied(self.alloc, script.interrupts()) else {
            return SessionEnd::NoMemory;
        };
        let around = Around::running(self.alloc, Some(400), reads, interrupts, budget);
        let run = Run::new(self.alloc, self.heap, around);
        let mut play = Playing::new(self.alloc, run);
        let ended = go(&mut play, sink, self.program);
        finish(&mut play, ended, sink)
    }
}

// Puts the lines that are left, and says how the session ends.
fn finish<O: Sink>(play: &mut Playing, ended: Result<(), Signal>, sink: &mut O) -> SessionEnd
    requires { HasMemory ended → CanEnd ended }
    ensures ended { EndsBy result ended }
    ensures lines { (told : Option (List ℕ)) (faults : ℕ) (whole : List Event)
        → IsPut told faults (moment (O.told sink.old) (O.faults sink.old) play.old.outlet) whole
        → (HasMemory ended → whole ≡ (world play.old.run).outside.trace) → Leaves result told faults (O.told sink.new) (O.faults sink.new) whole }
{
    let failed = play.outlet.failed;
    if failed {
        return SessionEnd::SinkFailed;
    }
    match ended {
        Err(why) => {
            if lacks_memory(why) {
                SessionEnd::NoMemory
            } else {
                put_rest(play, why, sink)
            }
        }
        Ok(()) => unreachable!(),
    }
}

// Whether memory was wanting.
fn lacks_memory(why: Signal) -> bool
    ensures { Lacks result why }
{
    match why {
        Signal::NoMemory => true,
        _ => false,
    }
}

// The same, where memory was not wanting.
fn put_rest<O: Sink>(play: &mut Playing, why: Signal, sink: &mut O) -> SessionEnd
    requires { CanEnd {A = Unit {0}} (Err why) }
    ensures ended { EndsBy {A = Unit {0}} result (Err why) }
    ensures lines { (told : Option (List ℕ)) (faults : ℕ)
        → IsPut told faults (moment (O.told sink.old) (O.faults sink.old) play.old.outlet) (world play.old.run).outside.trace
        → Leaves result told faults (O.told sink.new) (O.faults sink.new) (world play.old.run).outside.trace }
{
    match play.outlet.put_all(play.run.around.events(), sink) {
        Ok(()) => end_of(why),
        Err(NoMemory) => {
            let failed = play.outlet.failed;
            if failed {
                SessionEnd::SinkFailed
            } else {
                SessionEnd::NoMemory
            }
        }
    }
}

// How a session ends that goes no further for this reason.
fn end_of(why: Signal) -> SessionEnd
    requires { CanEnd {A = Unit {0}} (Err why) }
    ensures { IsEndOf {A = Unit {0}} result (Err why) }
{
    match why {
        Signal::Done => SessionEnd::Idle,
        Signal::Stops(code, _) => SessionEnd::Stop(code),
        Signal::Wants(address) => SessionEnd::Wants(address),
        Signal::OutOfClock => SessionEnd::Budget,
        Signal::OutOfDepth => SessionEnd::Depth,
        _ => unreachable!(),
    }
}

// These bytes, once more.
fn copied(alloc: Global, bytes: &[u8]) -> Result<Vec<u8>, NoMemory>
    ensures { IfOk result (λ v. v.items ≡ bytes.now) }
{
    let mut copy = Vec::new(alloc);
    copy.extend_from_slice(bytes)?;
    Ok(copy)
}
