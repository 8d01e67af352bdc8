// A run of the machine whose events leave it one by one.
ghost use Rattle.std.specs.Prelude.{◌≡◌, ◌<◌, ℕ, List, [], Some};
ghost use Rattle.avr_isa.specs.Cpu.{at_reset, marked};
ghost use Rattle.avr_isa.specs.Change.{WaitsInRegister};
ghost use Rattle.avr_isa.specs.Machine.{answered, done, next_state, performed, started, woken};
ghost use Rattle.avr_sim.specs.Walk.{pending, unstacked};

use avr_instr::{Instr, decode};
use avr_isa::memory::{can_push_two, push_two};
use avr_isa::{Cpu, Effect, Image, MachineEnd, step};
use std::marker::Model;
use vg_meaning::Event;

/// A machine on its way: its processor, the reads and the interrupts to come, the event of the last instruction that is still to be put, and its end.
///
/// Contracts see its state: the trace is that event, and how deep the stack has reached is not kept.
#[derive(Drop)]
pub struct Running<'a> {
    cpu: Cpu,
    reads: &'a [u8],
    interrupts: &'a [u8],
    event: Option<Event>,
    ended: Option<MachineEnd>,
}

impl<'a> Model for Running<'a> {
    ghost use Rattle.avr_isa.specs.Machine.{State};
    ghost use Rattle.avr_sim.specs.Walk.{pending};

    ghost Value = { State };

    ghost view = { λ m. record {
      cpu = m.cpu;
      outside = record { reads = m.reads.now; interrupts = m.interrupts.now; trace = pending m.event };
      lowest = 0;
      ended = m.ended;
    } };
}

impl<'a> Running<'a> {
    /// A processor at reset, in front of a script. It takes no memory.
    pub fn from_reset(cpu: Cpu, reads: &'a [u8], interrupts: &'a [u8]) -> Self
        requires { cpu ≡ at_reset marked }
        ensures { result ≡ unstacked (started marked reads.now interrupts.now) }
    {
        Running {
            cpu,
            reads,
            interrupts,
            event: None,
            ended: None,
        }
    }

    /// How the run has ended, if it has.
    pub fn ended(&self) -> Option<MachineEnd>
        ensures { result ≡ self.now.ended }
    {
        self.ended
    }

    /// Takes the event that is still to be put.
    pub fn take_event(&mut self) -> Option<Event>
        ensures event { pending result ≡ self.old.outside.trace }
        ensures rest { self.new ≡ record self.old { outside = record self.old.outside { trace = [] } } }
    {
        let event = self.event;
        self.event = None;
        event
    }

    /// One step: the instruction at PC, unless the run has ended. It takes no memory.
    pub fn step(&mut self, flash: &Image)
        requires { self.old.outside.trace ≡ [] }
        ensures { unstacked self.new ≡ unstacked (next_state flash.now self.old) }
    {
        if self.ended.is_some() {
            return;
        }
        let pc = self.cpu.pc();
        let word = flash.word(pc);
        match decode(word, flash.word(pc.wrapping_add(1))) {
            Some(instr) => self.perform(flash, instr, word),
            None => self.ended = Some(MachineEnd::Bad { pc, word }),
        }
    }

    // The instruction whose first word is this.
    fn perform(&mut self, flash: &Image, instr: Instr, word: u16)
        requires { self.old.outside.trace ≡ [] }
        ensures { unstacked self.new ≡ unstacked (performed flash.now (Some instr) word self.old) }
    {
        let effect = step(&mut self.cpu, flash, instr);
        self.finish(effect, word);
    }

    // What is left to be done behind the instruction whose first word is this.
    fn finish(&mut self, effect: Effect, word: u16)
        requires waiting { WaitsInRegister effect }
        requires put { self.old.outside.trace ≡ [] }
        ensures { unstacked self.new ≡ unstacked (done effect word self.old) }
    {
        match effect {
            Effect::Next => {}
            Effect::ReadDevice(address, register) => self.answer(address, register),
            Effect::WriteDevice(address, value) => self.event = Some(Event::Write(address, value)),
            Effect::Sleep => self.wake(word),
            Effect::Halt => self.ended = Some(MachineEnd::Stop(self.cpu.register(24))),
            Effect::Outside => self.ended = Some(MachineEnd::Bad {
                pc: self.cpu.pc(),
                word,
            }),
        }
    }

    // Takes the next read into a register.
    fn answer(&mut self, address: u8, register: u8)
        requires register { register < 32 }
        requires put { self.old.outside.trace ≡ [] }
        ensures { unstacked self.new ≡ unstacked (answered self.old.outside.reads address register self.old) }
    {
        match self.reads.split_first() {
            None => self.ended = Some(MachineEnd::Wants(address)),
            Some((value, rest)) => {
                self.cpu.set_register(register, *value);
                self.event = Some(Event::Read(address, *value));
                self.reads = rest;
            }
        }
    }

    // Takes the next interrupt.
    fn wake(&mut self, word: u16)
        requires { self.old.outside.trace ≡ [] }
        ensures { unstacked self.new ≡ unstacked (woken self.old.outside.interrupts word self.old) }
    {
        match self.interrupts.split_first() {
            None => self.ended = Some(MachineEnd::Idle),
            Some((vector, rest)) => {
                if !can_push_two(&self.cpu) {
                    self.ended = Some(MachineEnd::Bad {
                        pc: self.cpu.pc(),
                        word,
                    });
                    return;
                }
                let behind = self.cpu.pc().wrapping_add(1);
                push_two(&mut self.cpu, behind);
                self.cpu.set_pc(2 * u16::from(*vector));
                self.cpu.disable();
                self.event = Some(Event::Enter(*vector));
                self.interrupts = rest;
            }
        }
    }
}
