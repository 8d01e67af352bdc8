// The bytes of an image.
ghost use Rattle.std.specs.Prelude.{ℕ, ◌≡◌, ◌≤◌, ◌++◌, length, replicate, IfOk, OnOk};
ghost use Rattle.std.specs.List.{flat_map, AllByRecursion};
ghost use Rattle.avr_instr.specs.Spelled.{InRange};
ghost use Rattle.avr_isa.specs.Standing.{word_bytes, instr_bytes};
ghost use Rattle.vg_image.specs.Image.{slot_code, slot_in, slots_from, filler, code_start, flash_of, parts};

use avr_instr::{Instr, encode};
use std::alloc::Global;
use vg_base::NoMemory;

/// The flash of an image: 35 slots of two words, the tables from the byte address 0x008C on, and the code behind them from the next whole word on.
///
/// `slots` has, by the number of its vector, the word address of the stub to which a slot leads; a vector without one returns at once. The first one counts
/// for nothing: the slot of reset leads to the code. There are at most 60,000 bytes of tables. The error is want of memory.
pub fn flash(
    alloc: Global,
    slots: &[Option<u16>],
    tables: &[u8],
    code: &[Instr],
) -> Result<Vec<u8>, NoMemory>
    requires { length tables.now ≤ 60000 }
    ensures flash { IfOk result (λ flash. flash.items ≡ flash_of (parts slots.now tables.now code.now)) }
    ensures ranged { IfOk result (λ flash. AllByRecursion InRange code.now) }
{
    let mut flash = Vec::new(alloc);
    put(&mut flash, Instr::Jmp(start_of(tables)))?;
    put_slots(&mut flash, slots)?;
    put_bytes(&mut flash, tables)?;
    put_filler(&mut flash, tables)?;
    put_code(&mut flash, code)?;
    Ok(flash)
}

// The word address of the code.
fn start_of(tables: &[u8]) -> u16
    requires { length tables.now ≤ 60000 }
    ensures { result ≡ code_start tables.now }
{
    70 + ((tables.len() + 1) / 2) as u16
}

// The slots of the vectors 1 to 34.
#[tactic(auto, using(crate::proofs::Slots::slot_put))]
fn put_slots(flash: &mut Vec<u8>, slots: &[Option<u16>]) -> Result<(), NoMemory>
    ensures { OnOk result (flash.new.items ≡ flash.old.items ++ flat_map instr_bytes (slots_from (slot_in slots.now) 1 34)) }
{
    for count in 0..34usize {
        put_slot(flash, stub_of(slots, count + 1))?;
    }
    Ok(())
}

// Where a slot leads.
fn stub_of(slots: &[Option<u16>], vector: usize) -> Option<u16>
    ensures { result ≡ slot_in slots.now vector }
{
    match slots.get(vector) {
        Some(slot) => *slot,
        None => None,
    }
}

fn put_slot(flash: &mut Vec<u8>, slot: Option<u16>) -> Result<(), NoMemory>
    ensures { OnOk result (flash.new.items ≡ flash.old.items ++ flat_map instr_bytes (slot_code slot)) }
{
    match slot {
        Some(stub) => put(flash, Instr::Jmp(stub)),
        None => {
            put(flash, Instr::Reti)?;
            put(flash, Instr::Reti)
        }
    }
}

fn put_bytes(flash: &mut Vec<u8>, bytes: &[u8]) -> Result<(), NoMemory>
    ensures { OnOk result (flash.new.items ≡ flash.old.items ++ bytes.now) }
{
    for byte in bytes {
        flash.push(*byte)?;
    }
    Ok(())
}

// A byte of erased flash, where the tables end within a word.
fn put_filler(flash: &mut Vec<u8>, tables: &[u8]) -> Result<(), NoMemory>
    ensures { OnOk result (flash.new.items ≡ flash.old.items ++ filler tables.now) }
{
    if tables.len() % 2 == 1 {
        flash.push(0xFF)?;
    }
    Ok(())
}

fn put_code(flash: &mut Vec<u8>, code: &[Instr]) -> Result<(), NoMemory>
    ensures code { OnOk result (flash.new.items ≡ flash.old.items ++ flat_map instr_bytes code.now) }
    ensures ranged { OnOk result (AllByRecursion InRange code.now) }
{
    for instr in code {
        put(flash, *instr)?;
    }
    Ok(())
}

// The bytes of an instruction, word by word.
fn put(flash: &mut Vec<u8>, instr: Instr) -> Result<(), NoMemory>
    ensures bytes { OnOk result (flash.new.items ≡ flash.old.items ++ instr_bytes instr) }
    ensures ranged { OnOk result (InRange instr) }
{
    let (first, second) = encode(instr);
    put_word(flash, first)?;
    match second {
        Some(word) => put_word(flash, word),
        None => Ok(()),
    }
}

// A word, its low byte first.
fn put_word(flash: &mut Vec<u8>, word: u16) -> Result<(), NoMemory>
    ensures { OnOk result (flash.new.items ≡ flash.old.items ++ word_bytes word) }
{
    flash.push((word % 256) as u8)?;
    flash.push((word / 256) as u8)?;
    Ok(())
}
