// Shifts by amounts that are not known.
ghost use Rattle.std.specs.Prelude.{◌≡◌, ◌≤◌, ◌<◌, ◌++◌, OnOk, length};
ghost use Rattle.vg_templates.specs.Amounts.{shifts_left_by, shifts_right_by};
ghost use Rattle.vg_alloc.specs.Locations.{layout};
ghost use Rattle.vg_put_operations.specs.Mirrors.{brings_amount, counts_one, turns_again};
ghost use Rattle.vg_put_values.specs.Within.{IsThere};

use crate::shifts::{put_doubles, put_halves};
use avr_instr::{FarOffset, FlagBit, Instr, NearOffset, Register, UpperRegister};
use vg_alloc::Locations;
use vg_base::{NoMemory, Row};
use vg_lin::Operand;
use vg_put_values::{least, put_brings, put_gives};

// The amount comes in, and into r18 alone: where it has more than one byte, 255 stands for it. BREQ steps over that (AVR Instruction Set Manual, BREQ).
fn put_brings_amount(
    code: &mut Row<Instr>,
    locations: &Locations,
    amount: u8,
) -> Result<(), NoMemory>
    requires { amount < length locations.now.widths }
    ensures { OnOk result (code.new ≡ code.old ++ brings_amount (layout locations.now) amount) }
{
    put_brings(code, locations, Operand::Local(amount), 18, 4)?;
    code.push(Instr::Or(Register::new(19), Register::new(20)))?;
    code.push(Instr::Or(Register::new(19), Register::new(21)))?;
    code.push(Instr::Brbs(FlagBit::new(1), NearOffset::new(1)))?;
    code.push(Instr::Ldi(UpperRegister::new(18), 255))
}

// One is taken from the amount; where that borrows, the loop is left, over so many words and the way back (AVR Instruction Set Manual, BRCS).
fn put_counts_one(code: &mut Row<Instr>, words: u8) -> Result<(), NoMemory>
    requires { words ≤ 4 }
    ensures { OnOk result (code.new ≡ code.old ++ counts_one words) }
{
    code.push(Instr::Subi(UpperRegister::new(18), 1))?;
    code.push(Instr::Brbs(FlagBit::new(0), NearOffset::new(words + 1)))
}

// The way back to where the amount is counted.
fn put_turns_again(code: &mut Row<Instr>, words: u8) -> Result<(), NoMemory>
    requires { words ≤ 4 }
    ensures { OnOk result (code.new ≡ code.old ++ turns_again words) }
{
    code.push(Instr::Rjmp(FarOffset::new(4093 - u16::from(words))))
}

/// The low bytes of a value, shifted left by as many bits as a local says, go to a local.
pub fn put_shifts_left_by(
    code: &mut Row<Instr>,
    locations: &Locations,
    width: u8,
    to: u8,
    operand: Operand,
    amount: u8,
) -> Result<(), NoMemory>
    requires there { to < length locations.now.widths }
    requires operand { IsThere (layout locations.now) operand }
    requires amount { amount < length locations.now.widths }
    ensures { OnOk result (code.new ≡ code.old ++ shifts_left_by (layout locations.now) width to operand amount) }
{
    let words = least(width, locations.width(to));
    put_brings(code, locations, operand, 22, words)?;
    put_brings_amount(code, locations, amount)?;
    put_counts_one(code, words)?;
    put_doubles(code, 22, words)?;
    put_turns_again(code, words)?;
    put_gives(code, locations, to, 22, words)
}

/// The low bytes of a value, shifted right by as many bits as a local says, go to a local.
pub fn put_shifts_right_by(
    code: &mut Row<Instr>,
    locations: &Locations,
    width: u8,
    to: u8,
    operand: Operand,
    amount: u8,
) -> Result<(), NoMemory>
    requires narrow { width ≤ 4 }
    requires there { to < length locations.now.widths }
    requires operand { IsThere (layout locations.now) operand }
    requires amount { amount < length locations.now.widths }
    ensures { OnOk result (code.new ≡ code.old ++ shifts_right_by (layout locations.now) width to operand amount) }
{
    put_brings(code, locations, operand, 22, width)?;
    put_brings_amount(code, locations, amount)?;
    put_counts_one(code, width)?;
    put_halves(code, 22, width)?;
    put_turns_again(code, width)?;
    put_gives(code, locations, to, 22, width)
}
