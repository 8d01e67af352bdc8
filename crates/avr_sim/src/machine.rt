// The machine at reset, and its run.
ghost use Rattle.std.specs.Prelude.{◌≡◌, ◌≤◌, ℕ, List, Option, [], IfOk, OnOk, OnErr};
ghost use Rattle.avr_sim.specs.Walk.{pending};
ghost use Rattle.vg_io.specs.Count.{Rose};
ghost use Rattle.vg_io.specs.Piece.{AppendsAll, AppendsFront};
ghost use Rattle.avr_isa.specs.Machine.{run_from};
ghost use Rattle.avr_sim.specs.Run.{simulated, trace_lines};

use crate::running::Running;
use avr_isa::{Cpu, Image, MachineEnd};
use std::alloc::Global;
use std::marker::Model;
use vg_base::NoMemory;
use vg_io::{Failed, Sink};
use vg_meaning::Event;
use vg_script::{Script, put_event};

/// The machine at reset, with an image in its flash.
///
/// Contracts see the bytes of the flash.
#[derive(Drop)]
pub struct Machine {
    cpu: Cpu,
    flash: Image,
}

impl Model for Machine {
    ghost use Rattle.std.specs.Prelude.{◌≡◌, ℕ, List};
    ghost use Rattle.avr_isa.specs.Cpu.{at_reset, marked};

    ghost Value = { List ℕ };

    ghost view = { λ m. m.flash };

    ghost invariant = { λ m. m.cpu ≡ at_reset marked };
}

impl Machine {
    /// The machine at reset, with a copy of this image.
    pub fn new(alloc: Global, image: &Image) -> Result<Self, NoMemory>
        ensures { IfOk result (λ machine. machine ≡ image.now) }
    {
        let flash = Image::from_vec(Vec::from_slice(alloc, image.as_slice())?);
        let cpu = Cpu::at_reset(alloc)?;
        Ok(Machine { cpu, flash })
    }

    /// Runs at most so many instructions, and puts the line of each event of the trace. It takes no memory.
    ///
    /// The answer is how the machine has ended, and `None` where so many instructions ran and none of them ended the run. `Failed`
    /// is a put that failed: a front of the lines was put.
    pub fn run<O: Sink>(
        self,
        script: &Script,
        budget: u32,
        sink: &mut O,
    ) -> Result<Option<MachineEnd>, Failed>
        ensures ending { IfOk result (λ end. end ≡ (simulated self script.now.reads script.now.interrupts budget).ended) }
        ensures trace { OnOk result (AppendsAll (O.told sink.old) (O.told sink.new)
            (trace_lines (simulated self script.now.reads script.now.interrupts budget).outside.trace)) }
        ensures failed { OnErr result (AppendsFront (O.told sink.old) (O.told sink.new)
            (trace_lines (simulated self script.now.reads script.now.interrupts budget).outside.trace)) }
        ensures later { O.faults sink.old ≤ O.faults sink.new }
        ensures cause { OnErr result (Rose (O.faults sink.old) (O.faults sink.new)) }
    {
        let Machine { cpu, flash } = self;
        let mut running = Running::from_reset(cpu, script.reads(), script.interrupts());
        go(&mut running, &flash, budget, sink)?;
        Ok(running.ended())
    }
}

// At most so many instructions, with their events put.
fn go<O: Sink>(
    running: &mut Running<'_>,
    flash: &Image,
    budget: u32,
    sink: &mut O,
) -> Result<(), Failed>
    requires { running.old.outside.trace ≡ [] }
    ensures ended { OnOk result (running.new.ended ≡ (run_from flash.now budget running.old).ended) }
    ensures trace { OnOk result (AppendsAll (O.told sink.old) (O.told sink.new) (trace_lines (run_from flash.now budget running.old).outside.trace)) }
    ensures failed { OnErr result (AppendsFront (O.told sink.old) (O.told sink.new) (trace_lines (run_from flash.now budget running.old).outside.trace)) }
    ensures later { O.faults sink.old ≤ O.faults sink.new }
    ensures cause { OnErr result (Rose (O.faults sink.old) (O.faults sink.new)) }
{
    for _step in 0..budget {
        if running.ended().is_some() {
            return Ok(());
        }
        running.step(flash);
        put_pending(running.take_event(), sink)?;
    }
    Ok(())
}

// Puts the line of an event, if there is one.
fn put_pending<O: Sink>(event: Option<Event>, sink: &mut O) -> Result<(), Failed>
    ensures ok { OnOk result (AppendsAll (O.told sink.old) (O.told sink.new) (trace_lines (pending event))) }
    ensures failed { OnErr result (AppendsFront (O.told sink.old) (O.told sink.new) (trace_lines (pending event))) }
    ensures later { O.faults sink.old ≤ O.faults sink.new }
    ensures cause { OnErr result (Rose (O.faults sink.old) (O.faults sink.new)) }
{
    match event {
        None => Ok(()),
        Some(event) => put_event(event, sink),
    }
}
