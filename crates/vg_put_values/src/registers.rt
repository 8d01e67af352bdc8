// Lists of the registers in which the bytes of a number are, low byte first. Where a byte is zero, it is in r1.
ghost use Rattle.std.specs.Prelude.{◌≡◌, ◌≤◌, ◌+◌, ◌++◌, OnOk};
ghost use Rattle.vg_templates.specs.Operands.{least, padded, known_bytes, known_registers};

use avr_instr::{Instr, Register, UpperRegister};
use vg_base::{NoMemory, Row};

/// The lesser of two widths.
#[tactic(auto, using(crate::proofs::Counting::least_is))]
pub fn least(width: u8, count: u8) -> u8
    ensures least { result ≡ least width count }
    ensures below { result ≤ count }
{
    width.min(count)
}

/// So many registers from one on, as far as a width goes, and r1 behind it.
pub fn put_padded(
    registers: &mut Row<Register>,
    first: u8,
    width: u8,
    count: u8,
) -> Result<(), NoMemory>
    requires { first + width ≤ 32 }
    ensures { OnOk result (registers.new ≡ registers.old ++ padded first width count) }
{
    if count == 0 {
        return Ok(());
    }
    if width == 0 {
        registers.push(Register::new(1))?;
        return put_padded(registers, first, 0, count - 1);
    }
    registers.push(Register::new(first))?;
    put_padded(registers, first + 1, width - 1, count - 1)
}

/// Those of a known number: r1 for each byte that is zero, and else the one from d on into which it comes.
pub fn put_known_registers(
    registers: &mut Row<Register>,
    d: u8,
    count: u8,
    value: u32,
) -> Result<(), NoMemory>
    requires { d + count ≤ 32 }
    ensures { OnOk result (registers.new ≡ registers.old ++ known_registers d count value) }
{
    if count == 0 {
        return Ok(());
    }
    let register = if value % 256 == 0 { 1 } else { d };
    registers.push(Register::new(register))?;
    put_known_registers(registers, d + 1, count - 1, value / 256)
}

/// The bytes of a known number that are not zero come into registers from d on, which is at least 16.
pub fn put_known_bytes(code: &mut Row<Instr>, d: u8, count: u8, value: u32) -> Result<(), NoMemory>
    requires from { 16 ≤ d }
    requires top { d + count ≤ 32 }
    ensures { OnOk result (code.new ≡ code.old ++ known_bytes d count value) }
{
    if count == 0 {
        return Ok(());
    }
    if value % 256 != 0 {
        code.push(Instr::Ldi(UpperRegister::new(d), (value % 256) as u8))?;
    }
    put_known_bytes(code, d + 1, count - 1, value / 256)
}
