// The state of a procedure.
ghost use Rattle.std.specs.Prelude.{◌≡◌, ◌≤◌, ◌<◌, ◌+◌, ◌^◌, true, [], ◌∷◌, drop, reverse, IfOk, OnOk, MatchOption};
ghost use Rattle.std.specs.Option.{option_map};
ghost use Rattle.vg_lin.specs.State.{value, sets, pushes, holds, with_number, with_local};
ghost use Rattle.vg_lin.specs.Meaning.{begun, values_of, values, operands, result as given_back};
ghost use Rattle.vg_lin_states.specs.Doing.{pops_no};
ghost use Rattle.vg_lin_states.specs.Arguments.{arguments_of, newest_of, opened_as};

use crate::local::{Held, Local};
use crate::memory::{low_bytes, put_number};
use std::alloc::Global;
use std::marker::Model;
use vg_base::{NoMemory, Row};
use vg_lin::{Call, Operand, Passed, Registers, Test};
use vg_lin_values::values;

/// The locals of a procedure, the values that wait in it for a call, and the bytes of the columns in RAM.
#[derive(Drop)]
pub struct LinState {
    locals: Vec<Local>,
    /// The newest last.
    waiting: Vec<Held>,
    ram: Vec<u8>,
}

impl Model for LinState {
    ghost use Rattle.std.specs.Prelude.{reverse};
    ghost use Rattle.vg_lin.specs.State.{State};

    ghost Value = { State };

    ghost view = { λ s. record { locals = s.locals.items; waiting = reverse s.waiting.items; ram = s.ram.items } };
}

impl LinState {
    /// The state in which a procedure begins: its first locals get the arguments, the others have no value, and nothing waits.
    pub fn begin(
        alloc: Global,
        widths: &[u8],
        arguments: &[Held],
        ram: &[u8],
    ) -> Result<Self, NoMemory>
        ensures { IfOk result (λ s. s ≡ record { locals = begun widths.now (values_of arguments.now); waiting = []; ram = ram.now }) }
    {
        Ok(LinState {
            locals: begun(alloc, widths, arguments)?,
            waiting: Vec::new(alloc),
            ram: Vec::from_slice(alloc, ram)?,
        })
    }

    /// The value of an operand, where it has one.
    pub fn value(&self, operand: Operand) -> Option<u32>
        ensures { result ≡ value operand self.now }
    {
        match operand {
            Operand::Known(value) => Some(value),
            Operand::Local(number) => match self.locals.get(usize::from(number)) {
                Some(local) => local.value(),
                None => None,
            },
        }
    }

    /// Whether a test holds, where both its operands have a value.
    pub fn holds(&self, test: Test) -> Option<bool>
        requires { test.width ≤ 4 }
        ensures { result ≡ holds test self.now }
    {
        match (self.value(test.left), self.value(test.right)) {
            (Some(x), Some(y)) => Some(values::compared(test.comparison, test.width, x, y)),
            _ => None,
        }
    }

    /// A local gets the low bytes of a value, as many as it has.
    pub fn set(&mut self, to: u8, x: u32)
        ensures { self.new ≡ sets to x self.old }
    {
        put_local(self.locals.as_mut_slice(), usize::from(to), x);
    }

    /// So many low bytes of a value wait.
    pub fn push(&mut self, width: u8, x: u32) -> Result<(), NoMemory>
        ensures { OnOk result (self.new ≡ pushes width x self.old) }
    {
        self.waiting.push(Held::new(width, x))?;
        Ok(())
    }

    /// Takes the newest value that waits, where it has so many bytes.
    pub fn pop_of(&mut self, width: u8) -> Option<u32>
        ensures { MatchOption result ((pops_no width self.old.waiting ≡ true) × (self.new ≡ self.old))
            (λ v. self.old ≡ record self.new { waiting = record { width = width; value = v } ∷ self.new.waiting }) }
    {
        let held = match self.waiting.last() {
            Some(held) => *held,
            None => return None,
        };
        if held.width() != width {
            return None;
        }
        self.waiting.pop();
        Some(held.value())
    }

    /// The bytes of the columns in RAM.
    pub fn ram(&self) -> &[u8]
        ensures { result.now ≡ self.now.ram }
    {
        self.ram.as_slice()
    }

    /// Puts the low bytes of a number at an index in RAM and behind it, so many as the width says.
    pub fn store(&mut self, width: u8, index: usize, x: u32)
        requires { index + width < 2 ^ 64 }
        ensures { self.new ≡ record self.old { ram = with_number self.old.ram width index x } }
    {
        put_number(self.ram.as_mut_slice(), width, index, x);
    }

    /// The arguments of a call: the values that wait for it, and those in registers. None where there are not so many, or one has no value.
    pub fn arguments(&self, alloc: Global, call: &Call) -> Result<Option<Row<Held>>, NoMemory>
        ensures { IfOk result (λ r. r ≡ arguments_of call.now self.now) }
    {
        let Some(mut arguments) = newest(alloc, self.waiting.as_slice(), call.pushed)? else {
            return Ok(None);
        };
        let Some(others) = self.registers(alloc, call.registers)? else {
            return Ok(None);
        };
        arguments.extend_from_slice(others.as_slice())?;
        Ok(Some(Row::from_vec(arguments)))
    }

    // The arguments in registers.
    fn registers(&self, alloc: Global, registers: Registers) -> Result<Option<Row<Held>>, NoMemory>
        ensures { IfOk result (λ r. r ≡ values (operands registers) self.now) }
    {
        match registers {
            Registers::Empty => Ok(Some(Row::new(alloc))),
            Registers::One(a) => self.passed(alloc, &[a]),
            Registers::Two(a, b) => self.passed(alloc, &[a, b]),
            Registers::Three(a, b, c) => self.passed(alloc, &[a, b, c]),
            Registers::Four(a, b, c, d) => self.passed(alloc, &[a, b, c, d]),
        }
    }

    fn passed(&self, alloc: Global, passed: &[Passed]) -> Result<Option<Row<Held>>, NoMemory>
        ensures { IfOk result (λ r. r ≡ values passed.now self.now) }
    {
        match passed {
            [] => Ok(Some(Row::new(alloc))),
            [first, rest @ ..] => {
                let Some(mut row) = self.passed(alloc, rest)? else {
                    return Ok(None);
                };
                let Some(x) = self.value(first.value) else {
                    return Ok(None);
                };
                row.insert(0, Held::new(first.width, x))?;
                Ok(Some(row))
            }
        }
    }

    /// The newest values that wait, so many or all, wait no more.
    pub fn forget_newest(&mut self, count: u8)
        ensures { self.new ≡ record self.old { waiting = drop count self.old.waiting } }
    {
        let kept = self.waiting.len().saturating_sub(usize::from(count));
        self.waiting.truncate(kept);
    }

    /// So many low bytes of a value, where it has one and nothing waits: what a procedure gives back.
    pub fn result(&self, width: u8, operand: Operand) -> Option<u32>
        ensures { result ≡ given_back width operand self.now }
    {
        if self.waiting.len() > 0 {
            return None;
        }
        match self.value(operand) {
            Some(x) => Some(low_bytes(width, x)),
            None => None,
        }
    }

    /// Takes the bytes in RAM of another.
    pub fn take_ram_of(&mut self, other: Self)
        ensures { self.new ≡ record self.old { ram = other.ram } }
    {
        self.ram = other.ram;
    }
}

#[tactic(auto, using(crate::proofs::Locals::there, crate::proofs::Locals::nowhere))]
fn put_local(locals: &mut [Local], place: usize, x: u32)
    ensures { locals.new ≡ with_local locals.old place x }
{
    if place < locals.len() {
        let local = locals[place].with(x);
        locals[place] = local;
    }
}

// The newest of the values that wait, so many, in the order in which they came; none where fewer wait.
fn newest(alloc: Global, waiting: &[Held], count: u8) -> Result<Option<Vec<Held>>, NoMemory>
    ensures { IfOk result (λ r. option_map (λ v. v.items) r ≡ newest_of count (reverse waiting.now)) }
{
    let size = waiting.len();
    if size < usize::from(count) {
        return Ok(None);
    }
    let newest = Vec::from_slice(alloc, &waiting[size - usize::from(count)..])?;
    Ok(Some(newest))
}

fn begun(alloc: Global, widths: &[u8], arguments: &[Held]) -> Result<Vec<Local>, NoMemory>
    ensures { IfOk result (λ v. v.items ≡ begun widths.now (values_of arguments.now)) }
{
    let mut locals = Vec::new(alloc);
    for (place, width) in widths.iter().enumerate() {
        locals.push(opened(*width, arguments.get(place)))?;
    }
    Ok(locals)
}

fn opened(width: u8, argument: Option<&Held>) -> Local
    ensures { result ≡ opened_as width (option_map (λ held. held.now) argument.entry) }
{
    let local = Local::new(width);
    match argument {
        Some(held) => local.with(held.value()),
        None => local,
    }
}
