// Loads and stores of columns in RAM.
ghost use Rattle.std.specs.Prelude.{◌≡◌, ◌≤◌, ◌<◌, ◌+◌, ◌^◌, ◌++◌, OnOk, length};
ghost use Rattle.vg_templates.specs.Numbers.{AreBeside};
ghost use Rattle.vg_templates.specs.Accesses.{plus_base, points_x, loads_x, stores_x, is_near, address_of, loads_at, stores_at, points_by, loads_by, stores_by, loads_column, stores_column};
ghost use Rattle.vg_alloc.specs.Locations.{layout};
ghost use Rattle.vg_put_values.specs.Within.{IsThere};

use avr_instr::{Instr, Register, RegisterBesideX, UpperRegister};
use std::alloc::Global;
use vg_alloc::Locations;
use vg_base::{NoMemory, Row};
use vg_lin::{Address, Operand};
use vg_put_chains::put_known;
use vg_put_values::{found_in, home_of, made_in, put_brings, put_finds, put_settles};

/// Adds a base to a pair of upper registers: 65,536 less it is taken away. The base 0 costs no instruction.
pub fn put_plus_base(code: &mut Row<Instr>, d: u8, base: u16) -> Result<(), NoMemory>
    requires upper { 16 ≤ d }
    requires pair { d < 31 }
    ensures { OnOk result (code.new ≡ code.old ++ plus_base d base) }
{
    if base == 0 {
        return Ok(());
    }
    let less = 65535 - base + 1;
    code.push(Instr::Subi(UpperRegister::new(d), (less % 256) as u8))?;
    code.push(Instr::Sbci(UpperRegister::new(d + 1), (less / 256) as u8))
}

// X becomes the address.
fn put_points_x(
    code: &mut Row<Instr>,
    locations: &Locations,
    address: Address,
) -> Result<(), NoMemory>
    requires index { IsThere (layout locations.now) address.index }
    ensures { OnOk result (code.new ≡ code.old ++ points_x (layout locations.now) address.base address.index) }
{
    match address.index {
        Operand::Known(x) => put_known(code, 26, 2, u64::from(address.base) + u64::from(x)),
        Operand::Local(_) => {
            put_brings(code, locations, address.index, 26, 2)?;
            put_plus_base(code, 26, address.base)
        }
    }
}

fn put_loads_x(code: &mut Row<Instr>, d: u8, count: u8) -> Result<(), NoMemory>
    requires { d + count ≤ 26 }
    ensures { OnOk result (code.new ≡ code.old ++ loads_x d count) }
{
    if count == 0 {
        return Ok(());
    }
    code.push(Instr::LdXPlus(RegisterBesideX::new(d)))?;
    put_loads_x(code, d + 1, count - 1)
}

fn put_stores_x(code: &mut Row<Instr>, registers: &[Register]) -> Result<(), NoMemory>
    requires { AreBeside 26 28 registers.now }
    ensures { OnOk result (code.new ≡ code.old ++ stores_x registers.now) }
{
    match registers {
        [] => Ok(()),
        [first, rest @ ..] => {
            code.push(Instr::StXPlus(RegisterBesideX::new(first.number())))?;
            put_stores_x(code, rest)
        }
    }
}

// Whether bytes at an address are reached by instructions that have it.
fn is_near(width: u8, address: Address) -> bool
    ensures { result ≡ is_near width address.index }
{
    match address.index {
        Operand::Known(_) => width <= 2,
        Operand::Local(_) => false,
    }
}

// The address of a known index.
fn address_of(address: Address) -> u64
    ensures is { result ≡ address_of address.base address.index }
    ensures small { result < 2 ^ 33 }
{
    match address.index {
        Operand::Known(x) => u64::from(address.base) + u64::from(x),
        Operand::Local(_) => u64::from(address.base),
    }
}

fn put_loads_at(code: &mut Row<Instr>, d: u8, count: u8, address: u64) -> Result<(), NoMemory>
    requires registers { d + count ≤ 26 }
    requires small { address + count < 2 ^ 34 }
    ensures { OnOk result (code.new ≡ code.old ++ loads_at d count address) }
{
    if count == 0 {
        return Ok(());
    }
    code.push(Instr::Lds(Register::new(d), (address % 65536) as u16))?;
    put_loads_at(code, d + 1, count - 1, address + 1)
}

fn put_stores_at(
    code: &mut Row<Instr>,
    registers: &[Register],
    address: u64,
) -> Result<(), NoMemory>
    requires { address + length registers.now < 2 ^ 34 }
    ensures { OnOk result (code.new ≡ code.old ++ stores_at registers.now address) }
{
    match registers {
        [] => Ok(()),
        [first, rest @ ..] => {
            code.push(Instr::Sts((address % 65536) as u16, *first))?;
            put_stores_at(code, rest, address + 1)
        }
    }
}

// X becomes the address, unless it is near.
fn put_points(
    code: &mut Row<Instr>,
    locations: &Locations,
    near: bool,
    address: Address,
) -> Result<(), NoMemory>
    requires index { IsThere (layout locations.now) address.index }
    ensures { OnOk result (code.new ≡ code.old ++ points_by near (layout locations.now) address.base address.index) }
{
    if near {
        return Ok(());
    }
    put_points_x(code, locations, address)
}

fn put_loads(
    code: &mut Row<Instr>,
    near: bool,
    d: u8,
    count: u8,
    address: Address,
) -> Result<(), NoMemory>
    requires registers { d + count ≤ 26 }
    ensures { OnOk result (code.new ≡ code.old ++ loads_by near d count (address_of address.base address.index)) }
{
    if near {
        return put_loads_at(code, d, count, address_of(address));
    }
    put_loads_x(code, d, count)
}

fn put_stores(
    code: &mut Row<Instr>,
    near: bool,
    registers: &[Register],
    address: Address,
) -> Result<(), NoMemory>
    requires few { length registers.now ≤ 4 }
    requires beside { AreBeside 26 28 registers.now }
    ensures { OnOk result (code.new ≡ code.old ++ stores_by near registers.now (address_of address.base address.index)) }
{
    if near {
        return put_stores_at(code, registers, address_of(address));
    }
    put_stores_x(code, registers)
}

/// So many bytes of a column go to a local.
pub fn put_loads_column(
    code: &mut Row<Instr>,
    locations: &Locations,
    width: u8,
    to: u8,
    address: Address,
) -> Result<(), NoMemory>
    requires narrow { width ≤ 4 }
    requires there { to < length locations.now.widths }
    requires index { IsThere (layout locations.now) address.index }
    ensures { OnOk result (code.new ≡ code.old ++ loads_column (layout locations.now) width to address.base address.index) }
{
    let near = is_near(width, address);
    let home = home_of(locations, to, width);
    put_points(code, locations, near, address)?;
    put_loads(code, near, made_in(home), width, address)?;
    put_settles(code, locations, to, home, width)
}

/// So many low bytes of a value go to a column, from the registers in which they are: zero bytes of a known number from r1.
#[tactic(auto, using(crate::proofs::Beside::found_beside_x))]
pub fn put_stores_column(
    alloc: Global,
    code: &mut Row<Instr>,
    locations: &Locations,
    width: u8,
    address: Address,
    from: Operand,
) -> Result<(), NoMemory>
    requires narrow { width ≤ 4 }
    requires index { IsThere (layout locations.now) address.index }
    requires value { IsThere (layout locations.now) from }
    ensures { OnOk result (code.new ≡ code.old ++ stores_column (layout locations.now) width address.base address.index from) }
{
    locations.keeps();
    let near = is_near(width, address);
    put_points(code, locations, near, address)?;
    put_finds(code, locations, from, 22, width)?;
    let registers = found_in(alloc, locations, from, 22, width)?;
    put_stores(code, near, registers.as_slice(), address)
}
