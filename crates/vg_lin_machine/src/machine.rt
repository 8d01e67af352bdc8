// Steps and runs.
ghost use Rattle.std.specs.Prelude.{◌≡◌, ◌≤◌, ◌<◌, ◌-◌, ◌^◌, true, reverse, IfOk, OnOk, Some, None};
ghost use Rattle.std.specs.Option.{option_map};
ghost use Rattle.vg_meaning.specs.Outside.{before};
ghost use Rattle.vg_lin.specs.Program.{Program};
ghost use Rattle.vg_lin.specs.Steps.{begins, branched, calls, handles, performed, returns, step, steps as so_many, takes, went};
ghost use Rattle.vg_lin.specs.Meaning.{language, codes_in, at_start, run};
ghost use Rattle.vg_lin_states.specs.Narrow.{is_narrow, is_narrow_plain};
ghost use Rattle.vg_lin_states.specs.Programs.{program_of};
ghost use Rattle.vg_lin_machine.specs.Machines.{end_of, awaits_of};

use crate::calls::{enter, wake};
use crate::ending::End;
use crate::frame::{Awaits, Frame};
use crate::opening::{Opening, note};
use std::alloc::Global;
use std::marker::Model;
use std::mem;
use vg_base::NoMemory;
use vg_lin::{Call, Instr, Operand, Plain, Test};
use vg_lin_states::plain::perform;
use vg_lin_states::{Environment, LinProgram, LinState, Outcome};
use vg_meaning::Event;

/// A run of a program, at a moment. Contracts see its configuration.
#[derive(Drop)]
pub struct Machine<'a> {
    alloc: Global,
    proc: usize,
    pc: usize,
    state: LinState,
    /// The newest last.
    frames: Vec<Frame>,
    woken: Option<u8>,
    environment: Environment<'a>,
    /// The newest last.
    openings: Vec<Opening>,
    ending: Option<End>,
}

impl<'a> Model for Machine<'a> {
    ghost use Rattle.std.specs.Prelude.{◌<◌, ◌-◌, ◌^◌, reverse, IfSome};
    ghost use Rattle.std.specs.Option.{option_map};
    ghost use Rattle.vg_lin.specs.State.{State};
    ghost use Rattle.vg_lin.specs.Steps.{Config};
    ghost use Rattle.vg_lin_machine.specs.Machines.{end_of};

    ghost Value = { Config State };

    ghost view = { λ m. record {
      proc = m.proc;
      pc = m.pc;
      state = m.state;
      frames = reverse m.frames.items;
      woken = m.woken;
      outside = m.environment;
      openings = reverse m.openings.items;
      ending = option_map end_of m.ending;
    } };

    ghost invariant = { λ m. IfSome m.woken (λ _. m.pc < 2 ^ 64 - 1) };
}

impl<'a> Machine<'a> {
    /// Before the first step of a program, with these device reads and interrupts to come.
    pub fn new(
        alloc: Global,
        program: &LinProgram,
        reads: &'a [u8],
        interrupts: &'a [u8],
    ) -> Result<Self, NoMemory>
        ensures { IfOk result (λ m. m ≡ at_start (program_of program.now) (before reads.now interrupts.now)) }
    {
        let start = usize::from(program.start);
        Ok(Machine {
            alloc,
            proc: start,
            pc: 0,
            state: wake(alloc, program, start, program.ram.as_slice())?,
            frames: Vec::new(alloc),
            woken: None,
            environment: Environment::new(alloc, reads, interrupts),
            openings: Vec::new(alloc),
            ending: None,
        })
    }

    /// Why the run is over, if it is.
    pub fn ending(&self) -> Option<End>
        ensures { option_map end_of result ≡ self.now.ending }
    {
        self.ending
    }

    /// What the outside has seen, and what it still holds.
    pub fn environment(&self) -> &Environment<'a>
        ensures { result.now ≡ self.now.outside }
    {
        &self.environment
    }

    /// What the procedure in hand has.
    pub fn state(&self) -> &LinState
        ensures { result.now ≡ self.now.state }
    {
        &self.state
    }

    /// The open calls at each opening so far, the newest last.
    pub fn openings(&self) -> &[Opening]
        ensures { reverse result.now ≡ self.now.openings }
    {
        self.openings.as_slice()
    }

    /// One step. A run that is over stays as it is. After want of memory the machine is of no use.
    pub fn step(&mut self, program: &LinProgram) -> Result<(), NoMemory>
        ensures { OnOk result (self.new ≡ step (language (program_of program.now)) (codes_in program.now.procedures) self.old) }
    {
        if self.ending.is_some() {
            return Ok(());
        }
        match self.woken {
            Some(vector) => self.handle(program, vector),
            None => match program.instr(self.proc, self.pc) {
                Some(instr) => self.perform(program, instr),
                None => {
                    self.ending = Some(End::Wrong);
                    Ok(())
                }
            },
        }
    }

    /// So many steps, or as many as there are before the run is over.
    pub fn proceed(&mut self, program: &LinProgram, steps: u32) -> Result<(), NoMemory>
        ensures { OnOk result (self.new ≡ so_many (language (program_of program.now)) (codes_in program.now.procedures) steps self.old) }
    {
        for _step in 0..steps {
            if self.ending().is_some() {
                return Ok(());
            }
            self.step(program)?;
        }
        Ok(())
    }

    // Calls the handler of an interrupt that was taken, where there is one.
    fn handle(&mut self, program: &LinProgram, vector: u8) -> Result<(), NoMemory>
        requires { self.old.pc < 2 ^ 64 - 1 }
        ensures { let l = language (program_of program.now) in OnOk result (self.new ≡ handles l self.old (l.handler vector)) }
    {
        match program.handler(vector) {
            None => {
                self.pc += 1;
                self.woken = None;
                Ok(())
            }
            Some(proc) => {
                let proc = usize::from(proc);
                let state = wake(self.alloc, program, proc, self.state.ram())?;
                self.begin(program, proc, state, Awaits::Interrupt)
            }
        }
    }

    // A procedure begins in this state; the one in hand waits.
    fn begin(
        &mut self,
        program: &LinProgram,
        proc: usize,
        state: LinState,
        awaits: Awaits,
    ) -> Result<(), NoMemory>
        requires { self.old.pc < 2 ^ 64 - 1 }
        ensures { OnOk result (self.new ≡ begins (language (program_of program.now)) self.old proc state
            (record { proc = self.old.proc; pc = self.old.pc; kept = self.old.state; awaits = awaits_of awaits })) }
    {
        let kept = mem::replace(&mut self.state, state);
        self.frames
            .push(Frame::new(self.proc, self.pc, kept, awaits))?;
        note(
            self.alloc,
            program,
            proc,
            self.frames.as_slice(),
            &mut self.openings,
        )?;
        self.proc = proc;
        self.pc = 0;
        self.woken = None;
        Ok(())
    }

    // Does an instruction.
    fn perform(&mut self, program: &LinProgram, instr: Instr) -> Result<(), NoMemory>
        requires narrow { is_narrow instr ≡ true }
        requires low { self.old.pc < 2 ^ 63 }
        requires woken { self.old.woken ≡ None }
        ensures { OnOk result (self.new ≡ performed (language (program_of program.now)) self.old (Some instr)) }
    {
        match instr {
            Instr::Plain(plain) => self.perform_plain(program, plain),
            Instr::When(test, to) => {
                self.branch(true, test, to);
                Ok(())
            }
            Instr::Unless(test, to) => {
                self.branch(false, test, to);
                Ok(())
            }
            Instr::Jump(to) => {
                self.pc = usize::from(to);
                Ok(())
            }
            Instr::Call(call) => self.call(program, call),
            Instr::Return(width, operand) => {
                self.give_back(width, operand);
                Ok(())
            }
            Instr::Idle => self.idle(),
        }
    }

    fn perform_plain(&mut self, program: &LinProgram, instr: Plain) -> Result<(), NoMemory>
        requires narrow { is_narrow_plain instr ≡ true }
        requires low { self.old.pc < 2 ^ 63 }
        ensures { let l = language (program_of program.now) in
            OnOk result (self.new ≡ went self.old (l.plain instr self.old.state self.old.outside)) }
    {
        match perform(program, instr, &mut self.state, &mut self.environment)? {
            Outcome::Next => self.pc += 1,
            Outcome::Raised(code) => self.ending = Some(End::Stopped(code)),
            Outcome::NoRead(address) => self.ending = Some(End::NoRead(address)),
            Outcome::Wrong => self.ending = Some(End::Wrong),
        }
        Ok(())
    }

    // A branch that is taken where the test gives this truth value.
    fn branch(&mut self, wanted: bool, test: Test, to: u16)
        requires narrow { test.width ≤ 4 }
        requires low { self.old.pc < 2 ^ 63 }
        ensures { (p : Program) → self.new ≡ branched self.old wanted to ((language p).holds test self.old.state) }
    {
        match self.state.holds(test) {
            Some(holds) => {
                if holds == wanted {
                    self.pc = usize::from(to);
                } else {
                    self.pc += 1;
                }
            }
            None => self.ending = Some(End::Wrong),
        }
    }

    fn call(&mut self, program: &LinProgram, call: Call) -> Result<(), NoMemory>
        requires { self.old.pc < 2 ^ 63 }
        ensures { let l = language (program_of program.now) in OnOk result (self.new ≡ calls l self.old call (l.enter call self.old.state)) }
    {
        match enter(self.alloc, program, &call, &mut self.state)? {
            Some(entered) => self.begin(program, entered.proc, entered.state, Awaits::Result(call)),
            None => {
                self.ending = Some(End::Wrong);
                Ok(())
            }
        }
    }

    // The procedure that waits for a result goes on.
    fn give_back(&mut self, width: u8, operand: Operand)
        requires { self.old.woken ≡ None }
        ensures { (p : Program) → self.new ≡ returns (language p) self.old ((language p).value width operand self.old.state) }
    {
        let Some(value) = self.state.result(width, operand) else {
            self.ending = Some(End::Wrong);
            return;
        };
        match self.frames.pop() {
            Some(frame) => {
                let (proc, pc) = frame.go_on(&mut self.state, value);
                self.proc = proc;
                self.pc = pc;
            }
            None => self.ending = Some(End::Wrong),
        }
    }

    // Takes the next interrupt, or ends the run where none is left.
    fn idle(&mut self) -> Result<(), NoMemory>
        requires { self.old.pc < 2 ^ 63 }
        ensures { OnOk result (self.new ≡ takes self.old self.old.outside.interrupts) }
    {
        match self.environment.take_interrupt() {
            None => {
                self.ending = Some(End::Done);
                Ok(())
            }
            Some(vector) => {
                self.environment.note(Event::Enter(vector))?;
                self.woken = Some(vector);
                Ok(())
            }
        }
    }
}

/// A run of at most so many steps, with these device reads and interrupts to come.
pub fn run<'a>(
    alloc: Global,
    program: &LinProgram,
    reads: &'a [u8],
    interrupts: &'a [u8],
    steps: u32,
) -> Result<Machine<'a>, NoMemory>
    ensures { IfOk result (λ m. m ≡ run (program_of program.now) steps reads.now interrupts.now) }
{
    let mut machine = Machine::new(alloc, program, reads, interrupts)?;
    machine.proceed(program, steps)?;
    Ok(machine)
}
