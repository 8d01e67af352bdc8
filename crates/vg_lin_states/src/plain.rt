// Plain instructions.
ghost use Rattle.std.specs.Prelude.{◌≡◌, ◌≤◌, ℕ, suc, true, IfOk};
ghost use Rattle.vg_meaning.specs.Outside.{Outside};
ghost use Rattle.vg_lin.specs.declared.instr.Plain.TheVariants.{Compute as SpecCompute, Product as SpecProduct, DivideSteps as SpecDivideSteps, Load as SpecLoad};
ghost use Rattle.vg_lin.specs.declared.instr.Plain.TheVariants.{Copy as SpecCopy, Store as SpecStore, ReadDevice as SpecReadDevice};
ghost use Rattle.vg_lin.specs.declared.instr.Plain.TheVariants.{WriteDevice as SpecWriteDevice, Push as SpecPush, Pop as SpecPop, Find as SpecFind};
ghost use Rattle.vg_lin.specs.Program.{Program};
ghost use Rattle.vg_lin.specs.State.{divides, plain};
ghost use Rattle.vg_lin_states.specs.Narrow.{is_narrow_plain};
ghost use Rattle.vg_lin_states.specs.Programs.{program_of};
ghost use Rattle.vg_lin_states.specs.Doing.{Shows, can_divide};

use crate::environment::Environment;
use crate::memory::{index_of, number_at};
use crate::program::LinProgram;
use crate::state::LinState;
use vg_base::NoMemory;
use vg_lin::{Address, Computation, Memory, Operand, Plain};
use vg_lin_values::values;
use vg_meaning::Event;

/// How a plain instruction goes. Where the run does not go on, nothing has changed.
#[derive(Clone, Copy)]
pub enum Outcome {
    /// The run goes on behind the instruction.
    Next,
    /// An exception of this code.
    Raised(u8),
    /// A read of the device register at this address, where no read is left.
    NoRead(u8),
    /// What no legal program does.
    Wrong,
}

/// Does a plain instruction. After want of memory the state is of no use.
pub fn perform(
    program: &LinProgram,
    instr: Plain,
    state: &mut LinState,
    environment: &mut Environment<'_>,
) -> Result<Outcome, NoMemory>
    requires { is_narrow_plain instr ≡ true }
    ensures { IfOk result (λ w. Shows w (plain (program_of program.now) instr state.old environment.old)
        state.old state.new environment.old environment.new) }
{
    match instr {
        Plain::Copy(to, operand) => Ok(copy(state, to, operand)),
        Plain::Compute(computation) => Ok(compute(state, computation)),
        Plain::Product(to, left, right) => Ok(multiply(state, to, left, right)),
        Plain::DivideSteps(remainder, dividend, divisor) => {
            Ok(divide(state, remainder, dividend, divisor))
        }
        Plain::Load(memory, width, to, address) => {
            Ok(load(program, state, memory, width, to, address))
        }
        Plain::Store(width, address, operand) => Ok(store(state, width, address, operand)),
        Plain::ReadDevice(to, address) => read_device(state, environment, to, address),
        Plain::WriteDevice(address, operand) => write_device(state, environment, address, operand),
        Plain::Push(width, operand) => push(state, width, operand),
        Plain::Pop(width, to) => Ok(pop(state, width, to)),
        Plain::Find(dispatch, to, operand) => Ok(find(program, state, dispatch, to, operand)),
        Plain::CodeOf(procedure, to) => {
            state.set(to, u32::from(program.code(procedure)));
            Ok(Outcome::Next)
        }
        Plain::Stop(code) => Ok(Outcome::Raised(code)),
    }
}

fn copy(state: &mut LinState, to: u8, operand: Operand) -> Outcome
    ensures { (p : Program) (o : Outside) → Shows result (plain p (SpecCopy to operand) state.old o) state.old state.new o o }
{
    match state.value(operand) {
        Some(x) => {
            state.set(to, x);
            Outcome::Next
        }
        None => Outcome::Wrong,
    }
}

fn compute(state: &mut LinState, c: Computation) -> Outcome
    requires { c.width ≤ 4 }
    ensures { (p : Program) (o : Outside) → Shows result (plain p (SpecCompute c) state.old o) state.old state.new o o }
{
    let Some(x) = state.value(c.left) else {
        return Outcome::Wrong;
    };
    let Some(y) = state.value(c.right) else {
        return Outcome::Wrong;
    };
    match values::computed(c.operator, c.width, x, y) {
        Some(z) => {
            state.set(c.to, z);
            Outcome::Next
        }
        None => Outcome::Wrong,
    }
}

fn multiply(state: &mut LinState, to: u8, left: Operand, right: Operand) -> Outcome
    ensures { (p : Program) (o : Outside) → Shows result (plain p (SpecProduct to left right) state.old o) state.old state.new o o }
{
    let Some(x) = state.value(left) else {
        return Outcome::Wrong;
    };
    let Some(y) = state.value(right) else {
        return Outcome::Wrong;
    };
    state.set(to, values::byte_product(x, y));
    Outcome::Next
}

// All steps of a division. Where its operands have values before the first, they have some before each.
fn divide(state: &mut LinState, remainder: u8, dividend: u8, divisor: Operand) -> Outcome
    ensures { (p : Program) (o : Outside) → Shows result (plain p (SpecDivideSteps remainder dividend divisor) state.old o) state.old state.new o o }
{
    if !can_divide(state, remainder, dividend, divisor) {
        return Outcome::Wrong;
    }
    for _step in 0..32u8 {
        divide_once(state, remainder, dividend, divisor);
    }
    Outcome::Next
}

// Whether the operands of a division have values.
fn can_divide(state: &LinState, remainder: u8, dividend: u8, divisor: Operand) -> bool
    ensures { result ≡ can_divide state.now remainder dividend divisor }
{
    state.value(Operand::Local(remainder)).is_some()
        && state.value(Operand::Local(dividend)).is_some()
        && state.value(divisor).is_some()
}

// One step of a division.
fn divide_once(state: &mut LinState, remainder: u8, dividend: u8, divisor: Operand)
    requires { can_divide state.old remainder dividend divisor ≡ true }
    ensures still { can_divide state.new remainder dividend divisor ≡ true }
    ensures step { (n : ℕ) (o : Outside) → divides (suc n) remainder dividend divisor state.old o ≡ divides n remainder dividend divisor state.new o }
{
    let Some(r) = state.value(Operand::Local(remainder)) else {
        return;
    };
    let Some(d) = state.value(Operand::Local(dividend)) else {
        return;
    };
    let Some(v) = state.value(divisor) else {
        return;
    };
    state.set(remainder, values::next_remainder(r, d, v));
    state.set(dividend, values::next_dividend(r, d, v));
}

fn load(
    program: &LinProgram,
    state: &mut LinState,
    memory: Memory,
    width: u8,
    to: u8,
    address: Address,
) -> Outcome
    requires { width ≤ 4 }
    ensures { (o : Outside) → Shows result (plain (program_of program.now) (SpecLoad memory width to address) state.old o) state.old state.new o o }
{
    let Some(i) = state.value(address.index) else {
        return Outcome::Wrong;
    };
    let Some(index) = index_of(memory, address.base, i) else {
        return Outcome::Wrong;
    };
    let found = match memory {
        Memory::Ram => number_at(state.ram(), width, index),
        Memory::Flash => number_at(program.tables.as_slice(), width, index),
    };
    match found {
        Some(x) => {
            state.set(to, x);
            Outcome::Next
        }
        None => Outcome::Wrong,
    }
}

fn store(state: &mut LinState, width: u8, address: Address, operand: Operand) -> Outcome
    requires { width ≤ 4 }
    ensures { (p : Program) (o : Outside) → Shows result (plain p (SpecStore width address operand) state.old o) state.old state.new o o }
{
    let Some(i) = state.value(address.index) else {
        return Outcome::Wrong;
    };
    let Some(x) = state.value(operand) else {
        return Outcome::Wrong;
    };
    let Some(index) = index_of(Memory::Ram, address.base, i) else {
        return Outcome::Wrong;
    };
    if number_at(state.ram(), width, index).is_none() {
        return Outcome::Wrong;
    }
    state.store(width, index, x);
    Outcome::Next
}

fn read_device(
    state: &mut LinState,
    environment: &mut Environment<'_>,
    to: u8,
    address: u8,
) -> Result<Outcome, NoMemory>
    ensures { (p : Program) → IfOk result (λ w. Shows w (plain p (SpecReadDevice to address) state.old environment.old)
        state.old state.new environment.old environment.new) }
{
    let Some(value) = environment.take_read() else {
        return Ok(Outcome::NoRead(address));
    };
    environment.note(Event::Read(address, value))?;
    state.set(to, u32::from(value));
    Ok(Outcome::Next)
}

fn write_device(
    state: &mut LinState,
    environment: &mut Environment<'_>,
    address: u8,
    operand: Operand,
) -> Result<Outcome, NoMemory>
    ensures { (p : Program) → IfOk result (λ w. Shows w (plain p (SpecWriteDevice address operand) state.old environment.old)
        state.old state.new environment.old environment.new) }
{
    let Some(x) = state.value(operand) else {
        return Ok(Outcome::Wrong);
    };
    environment.note(Event::Write(address, (x % 256) as u8))?;
    Ok(Outcome::Next)
}

fn push(state: &mut LinState, width: u8, operand: Operand) -> Result<Outcome, NoMemory>
    ensures { (p : Program) (o : Outside) → IfOk result (λ w. Shows w (plain p (SpecPush width operand) state.old o) state.old state.new o o) }
{
    let Some(x) = state.value(operand) else {
        return Ok(Outcome::Wrong);
    };
    state.push(width, x)?;
    Ok(Outcome::Next)
}

fn pop(state: &mut LinState, width: u8, to: u8) -> Outcome
    ensures { (p : Program) (o : Outside) → Shows result (plain p (SpecPop width to) state.old o) state.old state.new o o }
{
    match state.pop_of(width) {
        Some(x) => {
            state.set(to, x);
            Outcome::Next
        }
        None => Outcome::Wrong,
    }
}

fn find(
    program: &LinProgram,
    state: &mut LinState,
    dispatch: u32,
    to: u8,
    operand: Operand,
) -> Outcome
    ensures { (o : Outside) → Shows result (plain (program_of program.now) (SpecFind dispatch to operand) state.old o) state.old state.new o o }
{
    let Some(n) = state.value(operand) else {
        return Outcome::Wrong;
    };
    let Some(procedure) = program.dispatched(dispatch, n) else {
        return Outcome::Wrong;
    };
    state.set(to, u32::from(program.code(procedure)));
    Outcome::Next
}
