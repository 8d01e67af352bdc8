// The code from reset on, and the piece in which the program waits.
ghost use Rattle.std.specs.Prelude.{◌≡◌, ◌≤◌, ◌++◌, OnOk};
ghost use Rattle.avr_view.specs.Start.{start_code};
ghost use Rattle.vg_templates.specs.Startup.{copy_turn, copies};
ghost use Rattle.vg_templates.specs.Idle.{idle_piece};
ghost use Rattle.vg_followed.specs.Reset.{reset_code};
ghost use Rattle.vg_image.specs.Image.{first_table};

use avr_instr::{
    FarOffset, FlagBit, Instr, IoAddress, NearOffset, Register, RegisterBesideX, RegisterBesideZ,
    UpperRegister,
};
use vg_base::{NoMemory, Row};

// SP becomes the last byte of SRAM.
fn put_stack(code: &mut Row<Instr>) -> Result<(), NoMemory>
    ensures { OnOk result (code.new ≡ code.old ++ start_code 16) }
{
    code.push(Instr::Ldi(UpperRegister::new(16), 0x10))?;
    code.push(Instr::Out(IoAddress::new(0x3E), Register::new(16)))?;
    code.push(Instr::Ldi(UpperRegister::new(16), 0xFF))?;
    code.push(Instr::Out(IoAddress::new(0x3D), Register::new(16)))
}

// One turn of the copy, up to this data address.
fn put_copy_turn(code: &mut Row<Instr>, end: u16) -> Result<(), NoMemory>
    ensures { OnOk result (code.new ≡ code.old ++ copy_turn end) }
{
    code.push(Instr::LpmZPlus(RegisterBesideZ::new(0)))?;
    code.push(Instr::StXPlus(RegisterBesideX::new(0)))?;
    code.push(Instr::Cpi(UpperRegister::new(26), (end % 256) as u8))?;
    code.push(Instr::Cpc(Register::new(27), Register::new(16)))?;
    code.push(Instr::Brbc(FlagBit::new(1), NearOffset::new(0x7B)))
}

// So many bytes of the first table go to the static area.
fn put_copies(code: &mut Row<Instr>, count: u16) -> Result<(), NoMemory>
    requires { count ≤ 4096 }
    ensures { OnOk result (code.new ≡ code.old ++ copies count first_table) }
{
    if count == 0 {
        return Ok(());
    }
    let end = 0x100 + count;
    code.push(Instr::Ldi(UpperRegister::new(26), 0))?;
    code.push(Instr::Ldi(UpperRegister::new(27), 1))?;
    code.push(Instr::Ldi(UpperRegister::new(30), 0x8C))?;
    code.push(Instr::Ldi(UpperRegister::new(31), 0))?;
    code.push(Instr::Ldi(UpperRegister::new(16), (end / 256) as u8))?;
    put_copy_turn(code, end)
}

/// The code from reset on: it sets SP and r1, copies the bytes with which the columns in RAM begin, at most 4,096, and calls the next word, where the first
/// procedure stands.
pub fn put_reset(code: &mut Row<Instr>, static_bytes: u16) -> Result<(), NoMemory>
    requires { static_bytes ≤ 4096 }
    ensures { OnOk result (code.new ≡ code.old ++ reset_code static_bytes first_table) }
{
    put_stack(code)?;
    code.push(Instr::Sub(Register::new(1), Register::new(1)))?;
    put_copies(code, static_bytes)?;
    code.push(Instr::Rcall(FarOffset::new(0)))
}

/// The piece of code in which the program waits for interrupts.
pub fn put_idle(code: &mut Row<Instr>) -> Result<(), NoMemory>
    ensures { OnOk result (code.new ≡ code.old ++ idle_piece) }
{
    code.push(Instr::Sei)?;
    code.push(Instr::Sleep)?;
    code.push(Instr::Cli)?;
    code.push(Instr::Ret)
}
