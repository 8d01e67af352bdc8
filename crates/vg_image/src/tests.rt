// The bytes of a small image, worked by hand from the opcodes of the instruction set manual: JMP is 0x940C with its word address behind it, RETI 0x9518,
// RET 0x9508 and SLEEP 0x9588, each word with its low byte first.
use super::flash;
use avr_instr::Instr;
use std::alloc::Global;
use vg_base::NoMemory;

// Vector 1 has a stub, there are three bytes of tables, and two instructions.
fn small(alloc: Global) -> Result<Vec<u8>, NoMemory> {
    flash(
        alloc,
        &[Some(0x7777), Some(0x1234), None],
        &[0xAA, 0xBB, 0xCC],
        &[Instr::Ret, Instr::Sleep],
    )
}

// Reset leads to the word 72, behind the slots and two words of tables; 33 vectors return at once; a byte fills the word in which the tables end.
fn small_by_hand(alloc: Global) -> Result<Vec<u8>, NoMemory> {
    let mut bytes = Vec::new(alloc);
    for byte in &[0x0Cu8, 0x94, 72, 0, 0x0C, 0x94, 0x34, 0x12] {
        bytes.push(*byte)?;
    }
    for _word in 0..66u8 {
        bytes.push(0x18)?;
        bytes.push(0x95)?;
    }
    for byte in &[0xAAu8, 0xBB, 0xCC, 0xFF, 0x08, 0x95, 0x88, 0x95] {
        bytes.push(*byte)?;
    }
    Ok(bytes)
}

#[test]
fn parts_stand_in_order(rt: HostRuntime) -> Result<(), NoMemory> {
    let image = small(rt.alloc())?;
    let by_hand = small_by_hand(rt.alloc())?;
    assert_eq!(rt; image.len(), 148);
    assert_eq!(rt; image.as_slice() == by_hand.as_slice(), true);
    Ok(())
}
