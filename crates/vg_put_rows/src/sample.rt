// Small procedures and their locations.
ghost use Rattle.std.specs.Prelude.{◌≡◌, ◌≤◌, IfOk};
ghost use Rattle.vg_put_rows.specs.Sample.{sample, pushing, taking, lasting, wide};

use std::alloc::Global;
use vg_alloc::{Locations, frames};
use vg_base::{NoMemory, Row};
use vg_lin::{Instr, LinProc, Operand, Plain};

/// The small procedure, of whose locals so many are parameters.
pub fn sample_procedure(alloc: Global, params: u8) -> Result<LinProc, NoMemory>
    requires { params ≤ 2 }
    ensures { IfOk result (λ p. p ≡ sample params) }
{
    let widths = sample_widths(alloc)?;
    let code = sample_code(alloc)?;
    Ok(LinProc::new(None, params, 0, widths, code))
}

fn sample_widths(alloc: Global) -> Result<Row<u8>, NoMemory>
    ensures { IfOk result (λ widths. widths ≡ (sample 0).widths) }
{
    let mut widths = Row::new(alloc);
    widths.push(2)?;
    widths.push(1)?;
    Ok(widths)
}

fn sample_code(alloc: Global) -> Result<Row<Instr>, NoMemory>
    ensures { IfOk result (λ code. code ≡ (sample 0).code) }
{
    let mut code = Row::new(alloc);
    code.push(Instr::Idle)?;
    code.push(Instr::Jump(0))?;
    Ok(code)
}

/// Its locations. Nothing is wanted behind a call, and no parameter is pushed: the first local is in r8 and r9, and the other one in r10.
pub fn sample_locations(alloc: Global, params: u8) -> Result<Locations, NoMemory>
    requires { params ≤ 2 }
    ensures { IfOk result (λ l. l.widths ≡ (sample params).widths) }
{
    let procedure = sample_procedure(alloc, params)?;
    frames(alloc, &procedure)
}

/// A procedure that idles, of whose four locals so many are parameters.
pub fn pushing_procedure(alloc: Global, params: u8) -> Result<LinProc, NoMemory>
    requires { params ≤ 4 }
    ensures { IfOk result (λ p. p ≡ pushing params) }
{
    let widths = pushing_widths(alloc)?;
    let code = sample_code(alloc)?;
    Ok(LinProc::new(None, params, 0, widths, code))
}

fn pushing_widths(alloc: Global) -> Result<Row<u8>, NoMemory>
    ensures { IfOk result (λ widths. widths ≡ (pushing 0).widths) }
{
    let mut widths = Row::new(alloc);
    widths.push(4)?;
    widths.push(4)?;
    widths.push(2)?;
    widths.push(1)?;
    Ok(widths)
}

/// Its locations. Where three of its locals are parameters, these are pushed, and the last local is in r8; the frame has the saved Y and the return address, and
/// then the third parameter of two bytes. Where all four are, behind Y and the return address lies the byte of the last one, and then the third.
pub fn pushing_locations(alloc: Global, params: u8) -> Result<Locations, NoMemory>
    requires { params ≤ 4 }
    ensures { IfOk result (λ l. l.widths ≡ (pushing params).widths) }
{
    let procedure = pushing_procedure(alloc, params)?;
    frames(alloc, &procedure)
}

/// A procedure that writes the last of its two parameters to a device, for ever.
pub fn taking_procedure(alloc: Global) -> Result<LinProc, NoMemory>
    ensures { IfOk result (λ p. p ≡ taking) }
{
    let widths = sample_widths(alloc)?;
    let code = taking_code(alloc)?;
    Ok(LinProc::new(None, 2, 0, widths, code))
}

fn taking_code(alloc: Global) -> Result<Row<Instr>, NoMemory>
    ensures { IfOk result (λ code. code ≡ taking.code) }
{
    let mut code = Row::new(alloc);
    code.push(Instr::Plain(Plain::WriteDevice(0x38, Operand::Local(1))))?;
    code.push(Instr::Jump(0))?;
    Ok(code)
}

/// Its locations. The parameters arrive in r18 to r20; the first one, which it does not need, would be in r8 and r9, and the other one is in r10.
pub fn taking_locations(alloc: Global) -> Result<Locations, NoMemory>
    ensures { IfOk result (λ l. l.widths ≡ taking.widths) }
{
    let procedure = taking_procedure(alloc)?;
    frames(alloc, &procedure)
}

/// A procedure that waits for interrupts and then writes the last of its two locals to a device.
pub fn lasting_procedure(alloc: Global) -> Result<LinProc, NoMemory>
    ensures { IfOk result (λ p. p ≡ lasting) }
{
    let widths = sample_widths(alloc)?;
    let code = lasting_code(alloc)?;
    Ok(LinProc::new(None, 0, 0, widths, code))
}

fn lasting_code(alloc: Global) -> Result<Row<Instr>, NoMemory>
    ensures { IfOk result (λ code. code ≡ lasting.code) }
{
    let mut code = Row::new(alloc);
    code.push(Instr::Idle)?;
    code.push(Instr::Plain(Plain::WriteDevice(0x38, Operand::Local(1))))?;
    code.push(Instr::Jump(0))?;
    Ok(code)
}

/// Its locations. The first local is in r8 and r9, and the other one, whose value is wanted behind the interrupt, in r2, which is saved.
pub fn lasting_locations(alloc: Global) -> Result<Locations, NoMemory>
    ensures { IfOk result (λ l. l.widths ≡ lasting.widths) }
{
    let procedure = lasting_procedure(alloc)?;
    frames(alloc, &procedure)
}

/// A procedure with more locals than there are registers for.
pub fn wide_procedure(alloc: Global) -> Result<LinProc, NoMemory>
    ensures { IfOk result (λ p. p ≡ wide) }
{
    let widths = wide_widths(alloc)?;
    let code = sample_code(alloc)?;
    Ok(LinProc::new(None, 3, 0, widths, code))
}

fn wide_widths(alloc: Global) -> Result<Row<u8>, NoMemory>
    ensures { IfOk result (λ widths. widths ≡ wide.widths) }
{
    let mut widths = Row::new(alloc);
    widths.push(4)?;
    widths.push(4)?;
    widths.push(1)?;
    widths.push(4)?;
    widths.push(4)?;
    widths.push(2)?;
    widths.push(4)?;
    widths.push(2)?;
    widths.push(2)?;
    Ok(widths)
}

/// Its locations. Of the sixteen bytes behind the parameters the first ten are in r8 to r17 and the others in r2 to r7, and the last local has the two newest
/// bytes of the frame; behind it lie the saved Y, what was saved of r2 to r7 and the return address, and then the third parameter, of one byte.
pub fn wide_locations(alloc: Global) -> Result<Locations, NoMemory>
    ensures { IfOk result (λ l. l.widths ≡ wide.widths) }
{
    let procedure = wide_procedure(alloc)?;
    frames(alloc, &procedure)
}
