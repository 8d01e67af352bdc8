// Registers that go on the stack and come back, and the frame pointer.
ghost use Rattle.std.specs.Prelude.{◌≡◌, ◌<◌, ◌++◌, OnOk};
ghost use Rattle.vg_templates.specs.Linkage.{pushes, pops, y_less, y_more, sp_is_y, takes_slots, drops_slots, frame_pointer};
ghost use Rattle.vg_put_chains.specs.Mirrors.{y_takes};

use avr_instr::{Instr, IoAddress, Register, SixBits, UpperRegister, WidePair};
use vg_base::{NoMemory, Row};

// The I/O addresses of the two bytes of the stack pointer (ATmega128 datasheet, "Stack Pointer").
const SPL: u8 = 0x3D;

const SPH: u8 = 0x3E;

/// Registers go on the stack, the first one last.
pub fn put_pushes(code: &mut Row<Instr>, registers: &[Register]) -> Result<(), NoMemory>
    ensures { OnOk result (code.new ≡ code.old ++ pushes registers.now) }
{
    match registers {
        [] => Ok(()),
        [d, rest @ ..] => {
            put_pushes(code, rest)?;
            code.push(Instr::Push(*d))
        }
    }
}

/// They come back, the first one first.
pub fn put_pops(code: &mut Row<Instr>, registers: &[Register]) -> Result<(), NoMemory>
    ensures { OnOk result (code.new ≡ code.old ++ pops registers.now) }
{
    match registers {
        [] => Ok(()),
        [d, rest @ ..] => {
            code.push(Instr::Pop(*d))?;
            put_pops(code, rest)
        }
    }
}

/// The stack pointer becomes Y.
pub fn put_sp_is_y(code: &mut Row<Instr>) -> Result<(), NoMemory>
    ensures { OnOk result (code.new ≡ code.old ++ sp_is_y) }
{
    code.push(Instr::Out(IoAddress::new(SPH), Register::new(29)))?;
    code.push(Instr::Out(IoAddress::new(SPL), Register::new(28)))
}

fn put_y_less(code: &mut Row<Instr>, bytes: u16) -> Result<(), NoMemory>
    ensures { OnOk result (code.new ≡ code.old ++ y_less bytes) }
{
    if bytes < 64 {
        return code.push(Instr::Sbiw(WidePair::new(28), SixBits::new(bytes as u8)));
    }
    put_y_takes(code, bytes)
}

fn put_y_takes(code: &mut Row<Instr>, bytes: u16) -> Result<(), NoMemory>
    ensures { OnOk result (code.new ≡ code.old ++ y_takes bytes) }
{
    code.push(Instr::Subi(UpperRegister::new(28), (bytes % 256) as u8))?;
    code.push(Instr::Sbci(UpperRegister::new(29), (bytes / 256) as u8))
}

fn put_y_more(code: &mut Row<Instr>, bytes: u16) -> Result<(), NoMemory>
    ensures { OnOk result (code.new ≡ code.old ++ y_more bytes) }
{
    if bytes < 64 {
        return code.push(Instr::Adiw(WidePair::new(28), SixBits::new(bytes as u8)));
    }
    put_y_takes(code, 65535 - bytes + 1)
}

/// Y becomes the frame pointer, where it is one, and both it and the stack pointer go below so many slots.
pub fn put_frame_pointer(code: &mut Row<Instr>, pointed: bool, slots: u16) -> Result<(), NoMemory>
    ensures { OnOk result (code.new ≡ code.old ++ frame_pointer pointed slots) }
{
    if !pointed {
        return Ok(());
    }
    code.push(Instr::In(Register::new(28), IoAddress::new(SPL)))?;
    code.push(Instr::In(Register::new(29), IoAddress::new(SPH)))?;
    if slots == 0 {
        return Ok(());
    }
    put_y_less(code, slots)?;
    put_sp_is_y(code)
}

/// The slots are dropped: both pointers go back over them.
pub fn put_drops_slots(code: &mut Row<Instr>, slots: u16) -> Result<(), NoMemory>
    ensures { OnOk result (code.new ≡ code.old ++ drops_slots slots) }
{
    if slots == 0 {
        return Ok(());
    }
    put_y_more(code, slots)?;
    put_sp_is_y(code)
}
