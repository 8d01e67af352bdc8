// Word addresses.
ghost use Rattle.std.specs.Prelude.{◌≡◌, ◌+◌, IfOk};
ghost use Rattle.avr_isa.specs.Standing.{widths};

use avr_code::count_words;
use avr_instr::Instr;
use vg_base::NoMemory;

// The most instructions that are counted at once.
const MOST: usize = 1_000_000_000;

/// The word address behind code that begins at another one. The error is want of memory: no memory has room for more than 2^32 words.
pub fn behind_code(at: u32, code: &[Instr]) -> Result<u32, NoMemory>
    ensures { IfOk result (λ next. next ≡ at + widths code.now) }
{
    if code.len() > MOST {
        return Err(NoMemory);
    }
    match at.checked_add(count_words(code)) {
        Some(next) => Ok(next),
        None => Err(NoMemory),
    }
}
