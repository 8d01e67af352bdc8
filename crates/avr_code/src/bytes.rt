// The bytes that spell instructions.
ghost use Rattle.std.specs.Prelude.{◌≡◌, ◌++◌, OnOk};
ghost use Rattle.std.specs.List.{flat_map};
ghost use Rattle.avr_isa.specs.Standing.{instr_bytes, word_bytes};

use avr_instr::{Instr, encode};
use vg_base::{NoMemory, Row};

/// The bytes that spell instructions go behind others, one instruction behind the other.
pub fn put_bytes(bytes: &mut Row<u8>, code: &[Instr]) -> Result<(), NoMemory>
    ensures { OnOk result (bytes.new ≡ bytes.old ++ flat_map instr_bytes code.now) }
{
    for instr in code {
        put_instr(bytes, *instr)?;
    }
    Ok(())
}

fn put_instr(bytes: &mut Row<u8>, instr: Instr) -> Result<(), NoMemory>
    ensures { OnOk result (bytes.new ≡ bytes.old ++ instr_bytes instr) }
{
    let (first, second) = encode(instr);
    put_word(bytes, first)?;
    match second {
        Some(word) => put_word(bytes, word),
        None => Ok(()),
    }
}

// A word, its low byte first.
fn put_word(bytes: &mut Row<u8>, word: u16) -> Result<(), NoMemory>
    ensures { OnOk result (bytes.new ≡ bytes.old ++ word_bytes word) }
{
    bytes.push((word % 256) as u8)?;
    bytes.push((word / 256) as u8)
}
