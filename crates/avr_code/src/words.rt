// How many words instructions take.
ghost use Rattle.std.specs.Prelude.{◌≡◌, ◌≤◌, length};
ghost use Rattle.avr_isa.specs.Standing.{width, widths};

use avr_instr::{Instr, encode};

/// How many words an instruction takes: 1 or 2.
pub fn width(instr: Instr) -> u32
    ensures width { result ≡ width instr }
    ensures few { result ≤ 2 }
{
    match encode(instr).1 {
        Some(_) => 2,
        None => 1,
    }
}

/// How many words instructions take, of at most 1,000,000,000.
pub fn count_words(code: &[Instr]) -> u32
    requires { length code.now ≤ 1000000000 }
    ensures { result ≡ widths code.now }
{
    let mut words = 0u32;
    for instr in code {
        words += width(*instr);
    }
    words
}
