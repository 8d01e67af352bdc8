// The parts of the processor's state that a table names.
use avr_isa::Cpu;

/// A part of the processor's state, with the number that it holds.
#[derive(Clone, Copy, Debug, PartialEq, Eq)]
pub enum Part {
    /// A register: its number, 0 to 31, and its byte.
    Register(u8, u8),
    /// A byte of SRAM, at its data address.
    Sram(u16, u8),
    Sreg(u8),
    Sp(u16),
    Rampz(u8),
    Pc(u16),
}

impl Part {
    /// The part that a word of a table names, as `r16=7F`, `0100=C3`, `sreg=80`, `sp=10FF`, `rampz=01` or `pc=0001`, its number in hexadecimal digits.
    pub fn of(word: &str) -> Option<Self> {
        let (name, digits) = word.split_once('=')?;
        let value = number(digits)?;
        match name {
            "sreg" => Some(Part::Sreg(byte(value)?)),
            "sp" => Some(Part::Sp(value)),
            "rampz" => Some(Part::Rampz(byte(value)?)),
            "pc" => Some(Part::Pc(value)),
            _ => match name.strip_prefix('r') {
                Some(register) => Some(Part::Register(register.parse::<u8>().ok()?, byte(value)?)),
                None => Some(Part::Sram(number(name)?, byte(value)?)),
            },
        }
    }

    /// Puts the part into the processor; false where the processor has no such part.
    pub fn put(self, cpu: &mut Cpu) -> bool {
        match self {
            Part::Register(register, value) => {
                if register >= 32 {
                    return false;
                }
                cpu.set_register(register, value);
            }
            Part::Sram(address, value) => {
                if address < 0x100 || address >= 0x1100 {
                    return false;
                }
                cpu.set_sram(address, value);
            }
            Part::Sreg(value) => cpu.set_sreg(value),
            Part::Sp(value) => cpu.set_sp(value),
            Part::Rampz(value) => cpu.set_rampz(value),
            Part::Pc(value) => cpu.set_pc(value),
        }
        true
    }
}

/// The number below 65,536 that hexadecimal digits of either case spell.
pub fn number(digits: &str) -> Option<u16> {
    u16::from_str_radix(digits, 16).ok()
}

/// The number, where it is a byte.
pub fn byte(value: u16) -> Option<u8> {
    u8::try_from(value).ok()
}
