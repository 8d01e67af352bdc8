// Sums and differences. A chain begins with an instruction that takes no carry in.
ghost use Rattle.std.specs.Prelude.{◌≡◌, ◌≤◌, ◌+◌, ◌++◌, OnOk, length};
ghost use Rattle.vg_templates.specs.Chains.{adds, adds_on, subtracts, subtracts_on, takes_known, takes_known_on};

use avr_instr::{Instr, Register, UpperRegister};
use vg_base::{NoMemory, Row};

/// Adds the number in a list of registers to the one in registers from d on.
pub fn put_adds(code: &mut Row<Instr>, d: u8, right: &[Register]) -> Result<(), NoMemory>
    requires { d + length right.now ≤ 32 }
    ensures { OnOk result (code.new ≡ code.old ++ adds d right.now) }
{
    match right {
        [] => Ok(()),
        [r, rest @ ..] => {
            code.push(Instr::Add(Register::new(d), *r))?;
            put_adds_on(code, d + 1, rest)
        }
    }
}

fn put_adds_on(code: &mut Row<Instr>, d: u8, right: &[Register]) -> Result<(), NoMemory>
    requires { d + length right.now ≤ 32 }
    ensures { OnOk result (code.new ≡ code.old ++ adds_on d right.now) }
{
    match right {
        [] => Ok(()),
        [r, rest @ ..] => {
            code.push(Instr::Adc(Register::new(d), *r))?;
            put_adds_on(code, d + 1, rest)
        }
    }
}

/// Takes the number in a list of registers from the one in registers from d on.
pub fn put_subtracts(code: &mut Row<Instr>, d: u8, right: &[Register]) -> Result<(), NoMemory>
    requires { d + length right.now ≤ 32 }
    ensures { OnOk result (code.new ≡ code.old ++ subtracts d right.now) }
{
    match right {
        [] => Ok(()),
        [r, rest @ ..] => {
            code.push(Instr::Sub(Register::new(d), *r))?;
            put_subtracts_on(code, d + 1, rest)
        }
    }
}

fn put_subtracts_on(code: &mut Row<Instr>, d: u8, right: &[Register]) -> Result<(), NoMemory>
    requires { d + length right.now ≤ 32 }
    ensures { OnOk result (code.new ≡ code.old ++ subtracts_on d right.now) }
{
    match right {
        [] => Ok(()),
        [r, rest @ ..] => {
            code.push(Instr::Sbc(Register::new(d), *r))?;
            put_subtracts_on(code, d + 1, rest)
        }
    }
}

/// Takes a known number from the one in so many registers from d on, which is at least 16.
pub fn put_takes_known(code: &mut Row<Instr>, d: u8, count: u8, value: u64) -> Result<(), NoMemory>
    requires from { 16 ≤ d }
    requires top { d + count ≤ 32 }
    ensures { OnOk result (code.new ≡ code.old ++ takes_known d count value) }
{
    if count == 0 {
        return Ok(());
    }
    code.push(Instr::Subi(UpperRegister::new(d), (value % 256) as u8))?;
    put_takes_known_on(code, d + 1, count - 1, value / 256)
}

fn put_takes_known_on(code: &mut Row<Instr>, d: u8, count: u8, value: u64) -> Result<(), NoMemory>
    requires from { 16 ≤ d }
    requires top { d + count ≤ 32 }
    ensures { OnOk result (code.new ≡ code.old ++ takes_known_on d count value) }
{
    if count == 0 {
        return Ok(());
    }
    code.push(Instr::Sbci(UpperRegister::new(d), (value % 256) as u8))?;
    put_takes_known_on(code, d + 1, count - 1, value / 256)
}
