// One line of a table.
use crate::outcome::effect_of;
use crate::part::{Part, number};
use avr_instr::decode;
use avr_isa::stack::{StackUse, lowest_by, stack_use};
use avr_isa::{Cpu, Effect, Image, step};
use hex::{FromHexError, decode as decode_digits};
use std::alloc::Global;
use vg_base::{FLASH_BYTES, NoMemory};

// What stands in front of the lowest address that the stack has reached.
const LOWEST: &str = "lowest=";

/// A line `assembler | words | before | after`: an instruction, the words that spell it, what the processor holds beside its state at reset, and what the
/// instruction changes and leaves to be done.
#[derive(Clone, Copy)]
pub struct StepLine<'a> {
    words: &'a str,
    before: &'a str,
    after: &'a str,
}

impl<'a> StepLine<'a> {
    /// The fields of a line; None where the line has none, and at a comment, which begins with `#`.
    pub fn of(text: &'a str) -> Option<Self> {
        if text.starts_with('#') {
            return None;
        }
        let (_assembler, fields) = text.split_once('|')?;
        let (words, fields) = fields.split_once('|')?;
        let (before, after) = fields.split_once('|')?;
        Some(StepLine {
            words,
            before,
            after,
        })
    }

    /// The flash that the line names by its first bytes; None where it names none.
    pub fn flash(self, alloc: Global) -> Result<Option<Image>, NoMemory> {
        match value_of(self.before, "flash=") {
            None => Ok(None),
            Some(digits) => flash_of(alloc, digits),
        }
    }

    /// Whether the words spell an instruction that leaves what the line says, and all else as it was.
    pub fn holds(self, alloc: Global, flash: &Image) -> Result<bool, NoMemory> {
        let mut words = self.words.split_whitespace();
        let Some(word) = words.next().and_then(number) else {
            return Ok(false);
        };
        let next = words.next().and_then(number).unwrap_or(0);
        let Some(instr) = decode(word, next) else {
            return Ok(false);
        };
        let mut cpu = Cpu::at_reset(alloc)?;
        let mut wanted = Cpu::at_reset(alloc)?;
        if !put_all(self.before, &mut cpu) || !put_all(self.before, &mut wanted) {
            return Ok(false);
        }
        let Some(effect) = put_outcome(self.after, &mut wanted) else {
            return Ok(false);
        };
        let stack = stack_use(&instr, &cpu);
        let left = step(&mut cpu, flash, instr);
        Ok(left == effect && same(&cpu, &wanted) && self.sees(stack, cpu.sp()))
    }

    // Whether this use of the stack, which has left this SP, makes the lowest address that the line says.
    fn sees(self, stack: StackUse, sp: u16) -> bool {
        let Some(before) = value_of(self.before, LOWEST).and_then(number) else {
            return true;
        };
        let after = match value_of(self.after, LOWEST) {
            Some(digits) => number(digits),
            None => Some(before),
        };
        after == Some(lowest_by(stack, sp, before))
    }
}

// The value behind a name among words.
fn value_of<'a>(words: &'a str, name: &str) -> Option<&'a str> {
    for word in words.split_whitespace() {
        if let Some(value) = word.strip_prefix(name) {
            return Some(value);
        }
    }
    None
}

// The flash whose first bytes these digits spell; None where they spell none.
fn flash_of(alloc: Global, digits: &str) -> Result<Option<Image>, NoMemory> {
    match decode_digits(alloc, digits) {
        Ok(bytes) => {
            if bytes.len() > FLASH_BYTES {
                return Ok(None);
            }
            Ok(Some(Image::from_vec(bytes)))
        }
        Err(FromHexError::OutOfMemory) => Err(NoMemory),
        Err(_) => Ok(None),
    }
}

// Whether a word names what is no part of the processor.
fn is_beside(word: &str) -> bool {
    word.starts_with(LOWEST) || word.starts_with("flash=")
}

// Puts parts into the processor; false where a word names none.
fn put_all(words: &str, cpu: &mut Cpu) -> bool {
    for word in words.split_whitespace() {
        if is_beside(word) {
            continue;
        }
        match Part::of(word) {
            Some(part) => {
                if !part.put(cpu) {
                    return false;
                }
            }
            None => return false,
        }
    }
    true
}

// Puts the parts into the processor, and gives the effect among the words.
fn put_outcome(words: &str, cpu: &mut Cpu) -> Option<Effect> {
    let mut effect = Effect::Next;
    for word in words.split_whitespace() {
        if is_beside(word) {
            continue;
        }
        match effect_of(word) {
            Some(named) => effect = named,
            None => {
                if !Part::of(word)?.put(cpu) {
                    return None;
                }
            }
        }
    }
    Some(effect)
}

// Whether two processors hold the same.
fn same(one: &Cpu, other: &Cpu) -> bool {
    one.sreg() == other.sreg()
        && one.sp() == other.sp()
        && one.rampz() == other.rampz()
        && one.pc() == other.pc()
        && same_registers(one, other)
        && same_sram(one, other)
}

fn same_registers(one: &Cpu, other: &Cpu) -> bool {
    for number in 0..32u8 {
        if one.register(number) != other.register(number) {
            return false;
        }
    }
    true
}

fn same_sram(one: &Cpu, other: &Cpu) -> bool {
    for address in 0x100..0x1100u16 {
        if one.sram(address) != other.sram(address) {
            return false;
        }
    }
    true
}
