// The code of the image, piece by piece. Each piece goes behind the code so far.
ghost use Rattle.std.specs.Prelude.{◌≡◌, ◌≤◌, ◌<◌, ◌++◌, OnOk};
ghost use Rattle.std.specs.List.{flat_map};
ghost use Rattle.avr_isa.specs.Standing.{word_bytes, instr_bytes};
ghost use Rattle.vg_first_text.specs.FirstSession.{IsDevice, AreDevices};
ghost use Rattle.vg_first_image.specs.Program.{slots, start, store_of, write_code, idle};
ghost use Rattle.avr_instr.specs.declared.instr.Instr.TheVariants.{Ldi};

use avr_instr::{FarOffset, Instr, IoAddress, Register, UpperRegister, encode};
use vg_base::NoMemory;
use vg_first_text::DeviceWrite;

// The register that each constant passes through: the first one that LDI takes.
const SCRATCH: u8 = 16;

// The 34 slots of the interrupts, of two words each: a RETI in the first word returns at once (ATmega128 datasheet, "Interrupts").
pub fn put_slots(code: &mut Vec<u8>) -> Result<(), NoMemory>
    ensures { OnOk result (code.new.items ≡ code.old.items ++ flat_map instr_bytes slots) }
{
    for _word in 0..68u8 {
        put(code, Instr::Reti)?;
    }
    Ok(())
}

// The stack begins at the last byte of SRAM, 0x10FF. SPH comes first, so that the pointer is never below SRAM behind a write of SPL (ATmega128
// datasheet, "Stack Pointer").
pub fn put_start(code: &mut Vec<u8>) -> Result<(), NoMemory>
    ensures { OnOk result (code.new.items ≡ code.old.items ++ flat_map instr_bytes start) }
{
    put_load(code, 0x10)?;
    put(
        code,
        Instr::Out(IoAddress::new(0x3E), Register::new(SCRATCH)),
    )?;
    put_load(code, 0xFF)?;
    put(
        code,
        Instr::Out(IoAddress::new(0x3D), Register::new(SCRATCH)),
    )
}

// The writes, in their order.
pub fn put_writes(code: &mut Vec<u8>, writes: &[DeviceWrite]) -> Result<(), NoMemory>
    requires { AreDevices writes.now }
    ensures { OnOk result (code.new.items ≡ code.old.items ++ flat_map instr_bytes (flat_map write_code writes.now)) }
{
    for write in writes {
        put_write(code, *write)?;
    }
    Ok(())
}

fn put_write(code: &mut Vec<u8>, write: DeviceWrite) -> Result<(), NoMemory>
    requires { IsDevice write }
    ensures { OnOk result (code.new.items ≡ code.old.items ++ flat_map instr_bytes (write_code write)) }
{
    put_load(code, write.value)?;
    put(code, store_at(write.address))
}

// OUT reaches the data addresses 0x20 to 0x5F, and names them from 0 on; STS reaches all (AVR Instruction Set Manual, OUT and STS).
fn store_at(address: u8) -> Instr
    requires { 0x20 ≤ address }
    ensures { result ≡ store_of address }
{
    let register = Register::new(SCRATCH);
    if address < 0x60 {
        Instr::Out(IoAddress::new(address - 0x20), register)
    } else {
        Instr::Sts(u16::from(address), register)
    }
}

// Between SEI and CLI an interrupt may be taken, and SLEEP waits for the next one. The jump goes back over four words, itself among them.
pub fn put_idle(code: &mut Vec<u8>) -> Result<(), NoMemory>
    ensures { OnOk result (code.new.items ≡ code.old.items ++ flat_map instr_bytes idle) }
{
    put(code, Instr::Sei)?;
    put(code, Instr::Sleep)?;
    put(code, Instr::Cli)?;
    put(code, Instr::Rjmp(FarOffset::new(0xFFC)))
}

// LDI: a constant goes into the scratch register.
fn put_load(code: &mut Vec<u8>, value: u8) -> Result<(), NoMemory>
    ensures { OnOk result (code.new.items ≡ code.old.items ++ instr_bytes (Ldi 16 value)) }
{
    put(code, Instr::Ldi(UpperRegister::new(SCRATCH), value))
}

// The bytes of an instruction, word by word.
pub fn put(code: &mut Vec<u8>, instr: Instr) -> Result<(), NoMemory>
    ensures { OnOk result (code.new.items ≡ code.old.items ++ instr_bytes instr) }
{
    let (first, second) = encode(instr);
    put_word(code, first)?;
    match second {
        Some(word) => put_word(code, word),
        None => Ok(()),
    }
}

// A word, its low byte first.
fn put_word(code: &mut Vec<u8>, word: u16) -> Result<(), NoMemory>
    ensures { OnOk result (code.new.items ≡ code.old.items ++ word_bytes word) }
{
    code.push((word % 256) as u8)?;
    code.push((word / 256) as u8)?;
    Ok(())
}
