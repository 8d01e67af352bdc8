// What is around a run.
ghost use Rattle.std.specs.Prelude.{◌≡◌, OnOk, length};
ghost use Rattle.vg_meaning.specs.Answer.{passes};
ghost use Rattle.vg_meaning.specs.History.{one_less};
ghost use Rattle.vg_meaning.specs.Outside.{with_event};
ghost use Rattle.vg_source.specs.Session.{running_world, starting_world};
ghost use Rattle.vg_interp_run.specs.Around.{phase_of, Interrupts, Opens, Reads, Ticks, Writes};

use crate::signal::{Exit, Signal};
use std::alloc::Global;
use std::marker::Model;
use vg_base::NoMemory;
use vg_meaning::Event;

/// Initialisation, or a run behind it.
#[derive(Clone, Copy, Debug, PartialEq, Eq)]
pub enum Phase {
    Starting,
    Running,
}

/// What a run has beside the state of its program: the clock, the limits, the depth of its calls, and the outside.
///
/// Contracts see the world, whose history is the depth.
#[derive(Drop)]
pub struct Around {
    phase: Phase,
    deepest: Option<u32>,
    largest: Option<u32>,
    clock: u32,
    reads: Vec<u8>,
    /// How many reads were taken.
    read: usize,
    interrupts: Vec<u8>,
    /// How many interrupts were taken.
    taken: usize,
    trace: Vec<Event>,
    depth: u32,
}

impl Model for Around {
    ghost use Rattle.std.specs.Prelude.{ℕ, drop};
    ghost use Rattle.vg_meaning.specs.World.{World};
    ghost use Rattle.vg_source.specs.Session.{running_world, starting_world};
    ghost use Rattle.vg_interp_run.specs.Around.{phase_of, world_of};

    ghost Value = { World ℕ };

    ghost view = { λ a. world_of (phase_of a.phase) a.deepest a.largest a.clock (drop a.read a.reads.items) (drop a.taken a.interrupts.items)
        a.trace.items a.depth };
}

impl Around {
    /// Around initialisation: at most 400 active calls and 60,000 stored values. It takes no memory.
    pub fn starting(alloc: Global, clock: u32) -> Self
        ensures { result ≡ starting_world 0 clock }
    {
        Around {
            phase: Phase::Starting,
            deepest: Some(400),
            largest: Some(60_000),
            clock,
            reads: Vec::new(alloc),
            read: 0,
            interrupts: Vec::new(alloc),
            taken: 0,
            trace: Vec::new(alloc),
            depth: 0,
        }
    }

    /// Around a run, with these reads and interrupts to come. It takes no memory.
    pub fn running(
        alloc: Global,
        deepest: Option<u32>,
        reads: Vec<u8>,
        interrupts: Vec<u8>,
        clock: u32,
    ) -> Self
        ensures { result ≡ running_world 0 deepest reads.items interrupts.items clock }
    {
        Around {
            phase: Phase::Running,
            deepest,
            largest: None,
            clock,
            reads,
            read: 0,
            interrupts,
            taken: 0,
            trace: Vec::new(alloc),
            depth: 0,
        }
    }

    /// The events so far, the oldest first.
    pub fn events(&self) -> &[Event]
        ensures { result.now ≡ self.now.outside.trace }
    {
        self.trace.as_slice()
    }

    /// How many interrupts are left.
    pub fn interrupts_left(&self) -> usize
        ensures { result ≡ length self.now.outside.interrupts }
    {
        self.interrupts.len().saturating_sub(self.taken)
    }

    /// Takes the next interrupt, and notes it.
    pub fn interrupt(&mut self) -> Result<u8, Signal>
        ensures { Interrupts result self.old self.new }
    {
        match self.interrupts.get(self.taken) {
            Some(vector) => {
                let vector = *vector;
                self.taken += 1;
                self.note(Event::Enter(vector))?;
                Ok(vector)
            }
            None => Err(Signal::Done),
        }
    }

    /// The clock.
    pub fn clock(&self) -> u32
        ensures { result ≡ self.now.clock }
    {
        self.clock
    }

    /// The phase.
    pub fn phase(&self) -> Phase
        ensures { phase_of result ≡ self.now.phase }
    {
        self.phase
    }

    /// Whether a number is more than the limit on stored values.
    pub fn passes_largest(&self, stored: usize) -> bool
        ensures { result ≡ passes self.now.largest stored }
    {
        match self.largest {
            Some(most) => (most as usize) < stored,
            None => false,
        }
    }

    /// Takes a tick.
    #[inline(always)]
    pub fn tick(&mut self) -> Result<(), Exit>
        ensures { Ticks result self.old self.new }
    {
        if self.clock == 0 {
            return Err(Exit::OutOfClock);
        }
        self.clock -= 1;
        Ok(())
    }

    /// Opens a call: a tick that sees it, and the look at the depth.
    pub fn open(&mut self) -> Result<(), Exit>
        ensures { Opens result self.old self.new }
    {
        if self.clock == 0 {
            return Err(Exit::OutOfClock);
        }
        if self.depth == u32::MAX {
            // No run has so many calls open: each took a tick.
            return Err(Exit::NoMemory);
        }
        self.clock -= 1;
        self.depth += 1;
        match self.deepest {
            Some(most) => {
                if most < self.depth {
                    Err(Exit::OutOfDepth)
                } else {
                    Ok(())
                }
            }
            None => Ok(()),
        }
    }

    /// Closes the newest call.
    pub fn close(&mut self)
        ensures { self.new ≡ record self.old { history = one_less self.old.history } }
    {
        self.depth = self.depth.saturating_sub(1);
    }

    /// Reads the device register at this address.
    pub fn read(&mut self, address: u8) -> Result<u8, Signal>
        ensures { Reads result address self.old self.new }
    {
        match self.phase {
            Phase::Starting => Err(Signal::Touches(address)),
            Phase::Running => match self.reads.get(self.read) {
                Some(value) => {
                    let value = *value;
                    self.read += 1;
                    self.note(Event::Read(address, value))?;
                    Ok(value)
                }
                None => Err(Signal::Wants(address)),
            },
        }
    }

    /// Writes this value to the device register at this address.
    pub fn write(&mut self, address: u8, value: u8) -> Result<(), Signal>
        ensures { Writes result address value self.old self.new }
    {
        match self.phase {
            Phase::Starting => Err(Signal::Touches(address)),
            Phase::Running => {
                self.note(Event::Write(address, value))?;
                Ok(())
            }
        }
    }

    // One event more.
    fn note(&mut self, event: Event) -> Result<(), NoMemory>
        ensures { OnOk result (self.new ≡ record self.old { outside = with_event self.old.outside event }) }
    {
        self.trace.push(event)?;
        Ok(())
    }
}
