// What an instruction leaves to be done, as a table names it.
use crate::part::{byte, number};
use avr_isa::Effect;

/// The effect that a word of a table names: `sleep`, `halt`, `outside`, `reads=36:10` (an address, and the number of the register that waits) or
/// `writes=38:05` (an address, and a value), with hexadecimal digits.
pub fn effect_of(word: &str) -> Option<Effect> {
    match word {
        "sleep" => return Some(Effect::Sleep),
        "halt" => return Some(Effect::Halt),
        "outside" => return Some(Effect::Outside),
        _ => {}
    }
    let (name, operands) = word.split_once('=')?;
    let (address, operand) = operands.split_once(':')?;
    let address = byte(number(address)?)?;
    let operand = byte(number(operand)?)?;
    match name {
        "reads" => Some(Effect::ReadDevice(address, operand)),
        "writes" => Some(Effect::WriteDevice(address, operand)),
        _ => None,
    }
}
