// Device registers, and the end of a run. IN and OUT reach the data addresses 0x20 to 0x5F, and name them from 0 on; LDS and STS reach all (AVR
// Instruction Set Manual).
ghost use Rattle.std.specs.Prelude.{◌≡◌, ◌<◌, ◌++◌, OnOk, length};
ghost use Rattle.vg_templates.specs.Plain.{first_of, writes_register, reads_register, writes_device, reads_device};
ghost use Rattle.vg_templates.specs.Straight.{stops};
ghost use Rattle.vg_alloc.specs.Locations.{layout};
ghost use Rattle.vg_put_values.specs.Within.{IsThere};

use avr_instr::{FarOffset, Instr, IoAddress, Register, UpperRegister};
use std::alloc::Global;
use vg_alloc::Locations;
use vg_base::{NoMemory, Row};
use vg_lin::Operand;
use vg_put_values::{found_in, home_of, made_in, put_finds, put_settles};

/// The first of some registers; r1 where there is none.
pub fn first_of(registers: &[Register]) -> Register
    ensures { result ≡ first_of registers.now }
{
    match registers {
        [] => Register::new(1),
        [first, ..] => *first,
    }
}

fn put_writes_register(
    code: &mut Row<Instr>,
    address: u8,
    register: Register,
) -> Result<(), NoMemory>
    ensures { OnOk result (code.new ≡ code.old ++ writes_register address register) }
{
    if 0x20 <= address && address < 0x60 {
        return code.push(Instr::Out(IoAddress::new(address - 0x20), register));
    }
    code.push(Instr::Sts(u16::from(address), register))
}

fn put_reads_register(
    code: &mut Row<Instr>,
    register: Register,
    address: u8,
) -> Result<(), NoMemory>
    ensures { OnOk result (code.new ≡ code.old ++ reads_register register address) }
{
    if 0x20 <= address && address < 0x60 {
        return code.push(Instr::In(register, IoAddress::new(address - 0x20)));
    }
    code.push(Instr::Lds(register, u16::from(address)))
}

/// The low byte of a value is written to the device register at an address.
pub fn put_writes_device(
    alloc: Global,
    code: &mut Row<Instr>,
    locations: &Locations,
    address: u8,
    operand: Operand,
) -> Result<(), NoMemory>
    requires operand { IsThere (layout locations.now) operand }
    ensures { OnOk result (code.new ≡ code.old ++ writes_device (layout locations.now) address operand) }
{
    put_finds(code, locations, operand, 22, 1)?;
    let registers = found_in(alloc, locations, operand, 22, 1)?;
    put_writes_register(code, address, first_of(registers.as_slice()))
}

/// What the device register at an address reads goes to a local.
pub fn put_reads_device(
    code: &mut Row<Instr>,
    locations: &Locations,
    to: u8,
    address: u8,
) -> Result<(), NoMemory>
    requires there { to < length locations.now.widths }
    ensures { OnOk result (code.new ≡ code.old ++ reads_device (layout locations.now) to address) }
{
    let home = home_of(locations, to, 1);
    put_reads_register(code, Register::new(made_in(home)), address)?;
    put_settles(code, locations, to, home, 1)
}

/// The run ends with this code: it goes to r24, and the jump behind it leads to itself.
pub fn put_stops(code: &mut Row<Instr>, exception: u8) -> Result<(), NoMemory>
    ensures { OnOk result (code.new ≡ code.old ++ stops exception) }
{
    code.push(Instr::Ldi(UpperRegister::new(24), exception))?;
    code.push(Instr::Rjmp(FarOffset::new(0xFFF)))
}
