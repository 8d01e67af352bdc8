// Products of bytes, and steps of division.
ghost use Rattle.std.specs.Prelude.{◌≡◌, ◌≤◌, ◌<◌, ◌+◌, ◌++◌, OnOk, length};
ghost use Rattle.vg_templates.specs.Products.{four_from, four_times, multiplies, brings_bit, shifts_remainder, takes_divisor, shifts_dividend, divides_once};
ghost use Rattle.vg_templates.specs.Products.{turns_back, divides_through};
ghost use Rattle.vg_alloc.specs.Locations.{layout};
ghost use Rattle.vg_put_operations.specs.Mirrors.{product, takes_four, gives_four};
ghost use Rattle.vg_put_values.specs.Within.{IsThere};

use crate::shifts::put_doubles_on;
use avr_instr::{FarOffset, FlagBit, Instr, NearOffset, Register, RegisterPair, UpperRegister};
use std::alloc::Global;
use vg_alloc::Locations;
use vg_base::{NoMemory, Row};
use vg_lin::Operand;
use vg_put_chains::{put_adds, put_ands, put_subtracts};
use vg_put_plain::first_of;
use vg_put_values::{found_in, put_brings, put_finds, put_gives};

// The product of two registers comes into r22 and r23. MUL leaves it in r0 and r1 (AVR Instruction Set Manual, MUL), and r1 is a zero again.
fn put_product(code: &mut Row<Instr>, left: Register, right: Register) -> Result<(), NoMemory>
    ensures { OnOk result (code.new ≡ code.old ++ product left right) }
{
    code.push(Instr::Mul(left, right))?;
    code.push(Instr::Movw(RegisterPair::new(22), RegisterPair::new(0)))?;
    code.push(Instr::Eor(Register::new(1), Register::new(1)))
}

/// The product of the low bytes of two values goes to a local.
pub fn put_multiplies(
    alloc: Global,
    code: &mut Row<Instr>,
    locations: &Locations,
    to: u8,
    left: Operand,
    right: Operand,
) -> Result<(), NoMemory>
    requires there { to < length locations.now.widths }
    requires left { IsThere (layout locations.now) left }
    requires right { IsThere (layout locations.now) right }
    ensures { OnOk result (code.new ≡ code.old ++ multiplies (layout locations.now) to left right) }
{
    put_finds(code, locations, left, 18, 1)?;
    put_finds(code, locations, right, 22, 1)?;
    let one = found_in(alloc, locations, left, 18, 1)?;
    let other = found_in(alloc, locations, right, 22, 1)?;
    put_product(code, first_of(one.as_slice()), first_of(other.as_slice()))?;
    put_gives(code, locations, to, 22, 2)
}

fn put_brings_bit(
    code: &mut Row<Instr>,
    locations: &Locations,
    dividend: u8,
) -> Result<(), NoMemory>
    requires { dividend < length locations.now.widths }
    ensures { OnOk result (code.new ≡ code.old ++ brings_bit (layout locations.now) dividend) }
{
    put_brings(code, locations, Operand::Local(dividend), 22, 4)?;
    code.push(Instr::Add(Register::new(25), Register::new(25)))?;
    code.push(Instr::Mov(Register::new(26), Register::new(1)))?;
    code.push(Instr::Adc(Register::new(26), Register::new(26)))
}

fn put_shifts_remainder(
    code: &mut Row<Instr>,
    locations: &Locations,
    remainder: u8,
) -> Result<(), NoMemory>
    requires { remainder < length locations.now.widths }
    ensures { OnOk result (code.new ≡ code.old ++ shifts_remainder (layout locations.now) remainder) }
{
    put_brings(code, locations, Operand::Local(remainder), 22, 4)?;
    code.push(Instr::Lsr(Register::new(26)))?;
    put_doubles_on(code, 22, 4)
}

/// Four registers from one on.
pub fn four_from(first: u8) -> [Register; 4]
    requires { first + 4 ≤ 32 }
    ensures { result ≡ four_from first }
{
    [
        Register::new(first),
        Register::new(first + 1),
        Register::new(first + 2),
        Register::new(first + 3),
    ]
}

// One register four times.
fn four_times(register: u8) -> [Register; 4]
    requires { register < 32 }
    ensures { result ≡ four_times register }
{
    let one = Register::new(register);
    [one, one, one, one]
}

// The divisor in r18 to r21 is taken from the remainder in r22 to r25, and r26 gets the sign of what is left.
fn put_takes_four(code: &mut Row<Instr>) -> Result<(), NoMemory>
    ensures { OnOk result (code.new ≡ code.old ++ takes_four) }
{
    put_subtracts(code, 22, &four_from(18))?;
    code.push(Instr::Sbc(Register::new(26), Register::new(26)))
}

// The divisor is added again, where that sign is set.
fn put_gives_four(code: &mut Row<Instr>) -> Result<(), NoMemory>
    ensures { OnOk result (code.new ≡ code.old ++ gives_four) }
{
    put_ands(code, 18, &four_times(26))?;
    put_adds(code, 22, &four_from(18))
}

fn put_takes_divisor(
    code: &mut Row<Instr>,
    locations: &Locations,
    divisor: Operand,
) -> Result<(), NoMemory>
    requires { IsThere (layout locations.now) divisor }
    ensures { OnOk result (code.new ≡ code.old ++ takes_divisor (layout locations.now) divisor) }
{
    put_brings(code, locations, divisor, 18, 4)?;
    put_takes_four(code)?;
    put_gives_four(code)
}

fn put_shifts_dividend(
    code: &mut Row<Instr>,
    locations: &Locations,
    dividend: u8,
) -> Result<(), NoMemory>
    requires { dividend < length locations.now.widths }
    ensures { OnOk result (code.new ≡ code.old ++ shifts_dividend (layout locations.now) dividend) }
{
    put_brings(code, locations, Operand::Local(dividend), 22, 4)?;
    code.push(Instr::Cpi(UpperRegister::new(26), 0xFF))?;
    put_doubles_on(code, 22, 4)
}

// One step of a division.
fn put_divides_once(
    code: &mut Row<Instr>,
    locations: &Locations,
    remainder: u8,
    dividend: u8,
    divisor: Operand,
) -> Result<(), NoMemory>
    requires remainder { remainder < length locations.now.widths }
    requires dividend { dividend < length locations.now.widths }
    requires divisor { IsThere (layout locations.now) divisor }
    ensures { OnOk result (code.new ≡ code.old ++ divides_once (layout locations.now) remainder dividend divisor) }
{
    put_brings_bit(code, locations, dividend)?;
    put_shifts_remainder(code, locations, remainder)?;
    put_takes_divisor(code, locations, divisor)?;
    put_gives(code, locations, remainder, 22, 4)?;
    put_shifts_dividend(code, locations, dividend)?;
    put_gives(code, locations, dividend, 22, 4)
}

// Counts r27 down, and leads back over so many words until it is 0: BREQ steps over the RJMP, which reaches further than BRNE does (AVR Instruction
// Set Manual, BREQ and RJMP).
fn put_turns_back(code: &mut Row<Instr>, words: usize) -> Result<(), NoMemory>
    ensures { OnOk result (code.new ≡ code.old ++ turns_back words) }
{
    code.push(Instr::Dec(Register::new(27)))?;
    code.push(Instr::Brbs(FlagBit::new(1), NearOffset::new(1)))?;
    code.push(Instr::Rjmp(FarOffset::new(4093usize.saturating_sub(words) as u16)))
}

/// The steps of a division, one turn of a loop each, by scratch registers.
pub fn put_divides_through(
    code: &mut Row<Instr>,
    locations: &Locations,
    remainder: u8,
    dividend: u8,
    divisor: Operand,
) -> Result<(), NoMemory>
    requires remainder { remainder < length locations.now.widths }
    requires dividend { dividend < length locations.now.widths }
    requires divisor { IsThere (layout locations.now) divisor }
    ensures { OnOk result (code.new ≡ code.old ++ divides_through (layout locations.now) remainder dividend divisor) }
{
    code.push(Instr::Ldi(UpperRegister::new(27), 32))?;
    let first = code.len();
    put_divides_once(code, locations, remainder, dividend, divisor)?;
    let words = code.len() - first;
    put_turns_back(code, words)
}
