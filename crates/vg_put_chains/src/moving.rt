// Numbers that move between registers and memory, byte by byte, low bytes first.
ghost use Rattle.std.specs.Prelude.{◌≡◌, ◌≤◌, ◌+◌, ◌%◌, ◌++◌, Bool, true, OnOk};
ghost use Rattle.vg_templates.specs.Transfers.{clears, known, is_twice, known_by, known_number, moves_two, moves, loads, stores};

use avr_instr::{Base, Instr, Register, RegisterPair, SixBits, UpperRegister};
use vg_base::{NoMemory, Row};

/// Zeros come into so many registers from d on.
pub fn put_clears(code: &mut Row<Instr>, d: u8, count: u8) -> Result<(), NoMemory>
    requires { d + count ≤ 32 }
    ensures { OnOk result (code.new ≡ code.old ++ clears d count) }
{
    if count == 0 {
        return Ok(());
    }
    code.push(Instr::Mov(Register::new(d), Register::new(1)))?;
    put_clears(code, d + 1, count - 1)
}

/// The low bytes of a known number come into so many registers from d on, which is at least 16, by as many instructions whatever the number.
pub fn put_known(code: &mut Row<Instr>, d: u8, count: u8, value: u64) -> Result<(), NoMemory>
    requires from { 16 ≤ d }
    requires top { d + count ≤ 32 }
    ensures { OnOk result (code.new ≡ code.old ++ known d count value) }
{
    if count == 0 {
        return Ok(());
    }
    code.push(Instr::Ldi(UpperRegister::new(d), (value % 256) as u8))?;
    put_known(code, d + 1, count - 1, value / 256)
}

// Whether four bytes, in registers from an even one on, are two bytes twice.
fn is_twice(d: u8, count: u8, value: u64) -> bool
    ensures { result ≡ is_twice d count value }
{
    count == 4 && d % 2 == 0 && value % 65536 == value / 65536 % 65536
}

// Two bytes, and the same behind them.
fn put_twice(code: &mut Row<Instr>, d: u8, value: u64) -> Result<(), NoMemory>
    requires from { 16 ≤ d }
    requires top { d + 4 ≤ 32 }
    requires even { d % 2 ≡ 0 }
    ensures { OnOk result (code.new ≡ code.old ++ known_by true d 4 value) }
{
    code.push(Instr::Ldi(UpperRegister::new(d), (value % 256) as u8))?;
    code.push(Instr::Ldi(UpperRegister::new(d + 1), (value / 256 % 256) as u8))?;
    code.push(Instr::Movw(RegisterPair::new(d + 2), RegisterPair::new(d)))
}

/// The low bytes of a known number come into so many registers from d on, which is at least 16, by as few instructions.
pub fn put_known_number(code: &mut Row<Instr>, d: u8, count: u8, value: u64) -> Result<(), NoMemory>
    requires from { 16 ≤ d }
    requires top { d + count ≤ 32 }
    ensures { OnOk result (code.new ≡ code.old ++ known_number d count value) }
{
    if is_twice(d, count, value) {
        return put_twice(code, d, value);
    }
    put_known(code, d, count, value)
}

fn put_moves_two(code: &mut Row<Instr>, r: u8, d: u8) -> Result<(), NoMemory>
    requires source { r + 2 ≤ 32 }
    requires target { d + 2 ≤ 32 }
    ensures { OnOk result (code.new ≡ code.old ++ moves_two r d) }
{
    if r % 2 == 0 && d % 2 == 0 {
        code.push(Instr::Movw(RegisterPair::new(d), RegisterPair::new(r)))
    } else {
        code.push(Instr::Mov(Register::new(d), Register::new(r)))?;
        code.push(Instr::Mov(Register::new(d + 1), Register::new(r + 1)))
    }
}

/// The number in `width` registers from r on goes to `count` ones from d on, with zeros behind it where these are more.
pub fn put_moves(code: &mut Row<Instr>, r: u8, d: u8, width: u8, count: u8) -> Result<(), NoMemory>
    requires source { r + width ≤ 32 }
    requires target { d + count ≤ 32 }
    ensures { OnOk result (code.new ≡ code.old ++ moves r d width count) }
{
    if width == 0 {
        return put_clears(code, d, count);
    }
    if count == 0 {
        return Ok(());
    }
    if width == 1 {
        code.push(Instr::Mov(Register::new(d), Register::new(r)))?;
        return put_clears(code, d + 1, count - 1);
    }
    if count == 1 {
        return code.push(Instr::Mov(Register::new(d), Register::new(r)));
    }
    put_moves_two(code, r, d)?;
    put_moves(code, r + 2, d + 2, width - 2, count - 2)
}

/// The number in `width` bytes from a displacement of a pointer on comes into `count` registers from d on, with zeros behind it where these are
/// more.
pub fn put_loads(
    code: &mut Row<Instr>,
    base: Base,
    displacement: u8,
    d: u8,
    width: u8,
    count: u8,
) -> Result<(), NoMemory>
    requires near { displacement + width ≤ 64 }
    requires target { d + count ≤ 32 }
    ensures { OnOk result (code.new ≡ code.old ++ loads base displacement d width count) }
{
    if width == 0 {
        return put_clears(code, d, count);
    }
    if count == 0 {
        return Ok(());
    }
    code.push(Instr::Ldd(Register::new(d), base, SixBits::new(displacement)))?;
    put_loads(code, base, displacement + 1, d + 1, width - 1, count - 1)
}

/// The number in `count` registers from r on goes to `width` bytes from a displacement of a pointer on, with zeros behind it where these are
/// more.
pub fn put_stores(
    code: &mut Row<Instr>,
    base: Base,
    displacement: u8,
    r: u8,
    width: u8,
    count: u8,
) -> Result<(), NoMemory>
    requires near { displacement + width ≤ 64 }
    requires source { r + count ≤ 32 }
    ensures { OnOk result (code.new ≡ code.old ++ stores base displacement r width count) }
{
    if width == 0 {
        return Ok(());
    }
    if count == 0 {
        code.push(Instr::Std(base, SixBits::new(displacement), Register::new(1)))?;
        return put_stores(code, base, displacement + 1, r, width - 1, 0);
    }
    code.push(Instr::Std(base, SixBits::new(displacement), Register::new(r)))?;
    put_stores(code, base, displacement + 1, r + 1, width - 1, count - 1)
}
