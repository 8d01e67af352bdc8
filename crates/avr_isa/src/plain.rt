// A plain machine: slow, and close to its definition.
ghost use Rattle.std.specs.Prelude.{◌≡◌, ◌+◌, ◌*◌, ◌/◌, ◌%◌, ◌<◌, ◌≤◌, ℕ, List, OnOk, IfOk, length, Some, None};
ghost use Rattle.vg_meaning.specs.Outside.{Outside};
ghost use Rattle.avr_isa.specs.Cpu.{CpuState, marked};
ghost use Rattle.avr_isa.specs.Change.{WaitsInRegister};
ghost use Rattle.avr_isa.specs.Machine.{State, answered, woken, done, performed, next_state, run_from, started};

use crate::cpu::Cpu;
use crate::effect::Effect;
use crate::ending::MachineEnd;
use crate::image::Image;
use crate::memory;
use crate::stack::{StackUse, lowest_by, stack_use};
use crate::stepping::step;
use avr_instr::{Instr, decode};
use std::alloc::Global;
use std::marker::Model;
use vg_base::NoMemory;
use vg_meaning::Event;

/// A machine: its processor, what its outside still holds and has seen, the lowest data address that its stack has reached, and its end.
///
/// Contracts see its state.
#[derive(Drop)]
pub struct PlainMachine<'a> {
    cpu: Cpu,
    reads: &'a [u8],
    interrupts: &'a [u8],
    trace: Vec<Event>,
    lowest: u16,
    ended: Option<MachineEnd>,
}

impl<'a> Model for PlainMachine<'a> {
    ghost Value = { State };

    ghost view = { λ m. record {
      cpu = m.cpu;
      outside = record { reads = m.reads.now; interrupts = m.interrupts.now; trace = m.trace.items };
      lowest = m.lowest;
      ended = m.ended;
    } };
}

impl<'a> PlainMachine<'a> {
    /// The machine at reset, with 0xA5 in its registers and its SRAM.
    pub fn new(alloc: Global, reads: &'a [u8], interrupts: &'a [u8]) -> Result<Self, NoMemory>
        ensures { IfOk result (λ m. m ≡ started marked reads.now interrupts.now) }
    {
        Ok(PlainMachine {
            cpu: Cpu::at_reset(alloc)?,
            reads,
            interrupts,
            trace: Vec::new(alloc),
            lowest: 0x1100,
            ended: None,
        })
    }

    /// What the outside has seen so far, the oldest first.
    pub fn trace(&self) -> &[Event]
        ensures { result.now ≡ self.now.outside.trace }
    {
        self.trace.as_slice()
    }

    /// How the run has ended, if it has.
    pub fn ended(&self) -> Option<MachineEnd>
        ensures { result ≡ self.now.ended }
    {
        self.ended
    }

    /// The lowest data address that the stack has reached.
    pub fn lowest(&self) -> u16
        ensures { result ≡ self.now.lowest }
    {
        self.lowest
    }

    /// One step: the instruction at PC, unless the run has ended.
    pub fn step(&mut self, flash: &Image) -> Result<(), NoMemory>
        ensures { OnOk result (self.new ≡ next_state flash.now self.old) }
    {
        if self.ended.is_some() {
            return Ok(());
        }
        let pc = self.cpu.pc();
        let word = flash.word(pc);
        match decode(word, flash.word(pc.wrapping_add(1))) {
            Some(instr) => self.perform(flash, instr, word),
            None => {
                self.ended = Some(MachineEnd::Bad { pc, word });
                Ok(())
            }
        }
    }

    /// At most this many steps.
    pub fn run(&mut self, flash: &Image, steps: u32) -> Result<(), NoMemory>
        ensures { OnOk result (self.new ≡ run_from flash.now steps self.old) }
    {
        for _step in 0..steps {
            self.step(flash)?;
        }
        Ok(())
    }

    // The instruction whose first word is this.
    fn perform(&mut self, flash: &Image, instr: Instr, word: u16) -> Result<(), NoMemory>
        requires { self.old.ended ≡ None }
        ensures { OnOk result (self.new ≡ performed flash.now (Some instr) word self.old) }
    {
        let stack = stack_use(&instr, &self.cpu);
        let effect = step(&mut self.cpu, flash, instr);
        self.lowest = lowest_by(stack, self.cpu.sp(), self.lowest);
        self.finish(effect, word)
    }

    // What is left to be done behind the instruction whose first word is this.
    fn finish(&mut self, effect: Effect, word: u16) -> Result<(), NoMemory>
        requires { WaitsInRegister effect }
        ensures { OnOk result (self.new ≡ done effect word self.old) }
    {
        match effect {
            Effect::Next => {}
            Effect::ReadDevice(address, register) => return self.answer(address, register),
            Effect::WriteDevice(address, value) => self.trace.push(Event::Write(address, value))?,
            Effect::Sleep => return self.wake(word),
            Effect::Halt => self.ended = Some(MachineEnd::Stop(self.cpu.register(24))),
            Effect::Outside => self.ended = Some(MachineEnd::Bad {
                pc: self.cpu.pc(),
                word,
            }),
        }
        Ok(())
    }

    // Takes the next read into a register.
    fn answer(&mut self, address: u8, register: u8) -> Result<(), NoMemory>
        requires { register < 32 }
        ensures { OnOk result (self.new ≡ answered self.old.outside.reads address register self.old) }
    {
        match self.reads.split_first() {
            None => self.ended = Some(MachineEnd::Wants(address)),
            Some((value, rest)) => {
                self.cpu.set_register(register, *value);
                self.trace.push(Event::Read(address, *value))?;
                self.reads = rest;
            }
        }
        Ok(())
    }

    // Takes the next interrupt.
    fn wake(&mut self, word: u16) -> Result<(), NoMemory>
        ensures { OnOk result (self.new ≡ woken self.old.outside.interrupts word self.old) }
    {
        match self.interrupts.split_first() {
            None => self.ended = Some(MachineEnd::Idle),
            Some((vector, rest)) => {
                let sp = self.cpu.sp();
                self.lowest = lowest_by(StackUse::PushesWord(sp), sp, self.lowest);
                if !memory::can_push_two(&self.cpu) {
                    self.ended = Some(MachineEnd::Bad {
                        pc: self.cpu.pc(),
                        word,
                    });
                    return Ok(());
                }
                let behind = self.cpu.pc().wrapping_add(1);
                memory::push_two(&mut self.cpu, behind);
                self.cpu.set_pc(2 * u16::from(*vector));
                self.cpu.disable();
                self.trace.push(Event::Enter(*vector))?;
                self.interrupts = rest;
            }
        }
        Ok(())
    }
}
