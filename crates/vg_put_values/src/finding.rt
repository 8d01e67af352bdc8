// Operands that are found where they are.
ghost use Rattle.std.specs.Prelude.{◌≡◌, ◌≤◌, ◌+◌, ◌++◌, IfOk, OnOk, length};
ghost use Rattle.vg_templates.specs.Operands.{finds_spot, spot_found, finds, found_in};
ghost use Rattle.vg_alloc.specs.Locations.{layout, place, IsWithin};
ghost use Rattle.vg_put_values.specs.Within.{IsThere};

use crate::operands::put_fetch;
use crate::registers::{least, put_known_bytes, put_known_registers, put_padded};
use avr_instr::{Instr, Register};
use std::alloc::Global;
use vg_alloc::{Locations, Spot};
use vg_base::{NoMemory, Row};
use vg_lin::Operand;

fn put_finds_spot(
    code: &mut Row<Instr>,
    spot: Spot,
    width: u8,
    d: u8,
    count: u8,
) -> Result<(), NoMemory>
    requires narrow { width ≤ 4 }
    requires within { IsWithin spot width }
    requires top { d + count ≤ 32 }
    ensures { OnOk result (code.new ≡ code.old ++ finds_spot (place spot) width d count) }
{
    match spot {
        Spot::Frame(_) => put_fetch(code, spot, width, d, least(width, count)),
        Spot::Registers(_) => Ok(()),
    }
}

fn put_spot_found(
    registers: &mut Row<Register>,
    spot: Spot,
    width: u8,
    d: u8,
    count: u8,
) -> Result<(), NoMemory>
    requires within { IsWithin spot width }
    requires top { d + width ≤ 32 }
    ensures { OnOk result (registers.new ≡ registers.old ++ spot_found (place spot) width d count) }
{
    match spot {
        Spot::Frame(_) => put_padded(registers, d, width, count),
        Spot::Registers(first) => put_padded(registers, first, width, count),
    }
}

/// The code that finds the low bytes of an operand's value, with scratch registers from d on, which is at least 16.
pub fn put_finds(
    code: &mut Row<Instr>,
    locations: &Locations,
    operand: Operand,
    d: u8,
    count: u8,
) -> Result<(), NoMemory>
    requires operand { IsThere (layout locations.now) operand }
    requires from { 16 ≤ d }
    requires top { d + count ≤ 32 }
    ensures { OnOk result (code.new ≡ code.old ++ finds (layout locations.now) operand d count) }
{
    match operand {
        Operand::Local(k) => {
            put_finds_spot(code, locations.spot(k), locations.width(k), d, count)
        }
        Operand::Known(x) => put_known_bytes(code, d, count, x),
    }
}

/// The registers in which they are then, low byte first.
pub fn found_in(
    alloc: Global,
    locations: &Locations,
    operand: Operand,
    d: u8,
    count: u8,
) -> Result<Row<Register>, NoMemory>
    requires operand { IsThere (layout locations.now) operand }
    requires top { d ≤ 28 }
    requires few { d + count ≤ 32 }
    ensures registers { IfOk result (λ rs. rs ≡ found_in (layout locations.now) operand d count) }
    ensures count { IfOk result (λ rs. length rs ≡ count) }
{
    registers_of(alloc, locations, operand, d, count)
}

fn registers_of(
    alloc: Global,
    locations: &Locations,
    operand: Operand,
    d: u8,
    count: u8,
) -> Result<Row<Register>, NoMemory>
    requires operand { IsThere (layout locations.now) operand }
    requires top { d ≤ 28 }
    requires few { d + count ≤ 32 }
    ensures { IfOk result (λ rs. rs ≡ found_in (layout locations.now) operand d count) }
{
    let mut registers = Row::new(alloc);
    match operand {
        Operand::Local(k) => {
            let spot = locations.spot(k);
            put_spot_found(&mut registers, spot, locations.width(k), d, count)?;
        }
        Operand::Known(x) => put_known_registers(&mut registers, d, count, x)?,
    }
    Ok(registers)
}
