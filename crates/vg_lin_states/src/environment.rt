// What the outside of a run still holds, and what it has seen.
ghost use Rattle.std.specs.Prelude.{◌≡◌, [], ◌∷◌, OnOk, MatchOption, Some, None};
ghost use Rattle.vg_meaning.specs.Outside.{before, with_event};

use std::alloc::Global;
use std::marker::Model;
use vg_base::NoMemory;
use vg_meaning::Event;

/// The reads and the interrupts to come, and the trace so far.
#[derive(Drop)]
pub struct Environment<'a> {
    reads: &'a [u8],
    interrupts: &'a [u8],
    trace: Vec<Event>,
}

impl<'a> Model for Environment<'a> {
    ghost use Rattle.vg_meaning.specs.Outside.{Outside};

    ghost Value = { Outside };

    ghost view = { λ e. record { reads = e.reads.now; interrupts = e.interrupts.now; trace = e.trace.items } };
}

impl<'a> Environment<'a> {
    /// Before a run. It takes no memory.
    pub fn new(alloc: Global, reads: &'a [u8], interrupts: &'a [u8]) -> Self
        ensures { result ≡ before reads.now interrupts.now }
    {
        Environment {
            reads,
            interrupts,
            trace: Vec::new(alloc),
        }
    }

    /// The events so far, the oldest first.
    pub fn trace(&self) -> &[Event]
        ensures { result.now ≡ self.now.trace }
    {
        self.trace.as_slice()
    }

    /// One event more.
    pub fn note(&mut self, event: Event) -> Result<(), NoMemory>
        ensures { OnOk result (self.new ≡ with_event self.old event) }
    {
        self.trace.push(event)?;
        Ok(())
    }

    /// Takes the next read, where one is left.
    pub fn take_read(&mut self) -> Option<u8>
        ensures { MatchOption result ((self.old.reads ≡ []) × (self.new ≡ self.old))
            (λ v. (self.old.reads ≡ v ∷ self.new.reads) × (self.new ≡ record self.old { reads = self.new.reads })) }
    {
        match self.reads.split_first() {
            None => None,
            Some((value, rest)) => {
                self.reads = rest;
                Some(*value)
            }
        }
    }

    /// Takes the next interrupt, where one is left.
    pub fn take_interrupt(&mut self) -> Option<u8>
        ensures { MatchOption result ((self.old.interrupts ≡ []) × (self.new ≡ self.old))
            (λ v. (self.old.interrupts ≡ v ∷ self.new.interrupts) × (self.new ≡ record self.old { interrupts = self.new.interrupts })) }
    {
        match self.interrupts.split_first() {
            None => None,
            Some((vector, rest)) => {
                self.interrupts = rest;
                Some(*vector)
            }
        }
    }
}
