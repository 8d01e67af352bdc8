// The processor.
ghost use Rattle.std.specs.Prelude.{◌≡◌, ◌+◌, ◌-◌, ◌*◌, ◌/◌, ◌%◌, ◌<◌, ◌≤◌, ℕ, IfOk, IsTrue, ◌↔◌, length, slice_index, slice_set};
ghost use Rattle.avr_isa.specs.Cpu.{CpuState, at_reset, marked, forward, is_enabled, enabled, disabled};
ghost use Rattle.avr_isa.specs.Change.{register_of, with_register, with_sreg, moved, pair_of, with_pair};

use std::alloc::Global;
use std::marker::Model;
use vg_base::NoMemory;

/// The bytes of the SRAM, from data address 0x0100 to 0x10FF (ATmega128 datasheet, "SRAM Data Memory").
pub const SRAM_BYTES: usize = 4096;

/// The processor: the registers r0 to r31, SREG, SP (a data address), PC (a word address), RAMPZ and 4,096 bytes of SRAM.
///
/// Contracts see its state.
#[derive(Drop)]
pub struct Cpu {
    registers: [u8; 32],
    sram: Vec<u8>,
    sreg: u8,
    sp: u16,
    rampz: u8,
    pc: u16,
}

impl Model for Cpu {
    ghost Value = { CpuState };

    ghost view = { λ c. record { registers = c.registers; sram = c.sram.items; sreg = c.sreg; sp = c.sp; rampz = c.rampz; pc = c.pc } };

    ghost invariant = { λ c. length c.sram.items ≡ 4096 };
}

impl Cpu {
    /// The processor at reset: PC, SP, SREG and RAMPZ are 0. Of the contents that the chip may have at power-on, registers and
    /// SRAM hold 0xA5.
    pub fn at_reset(alloc: Global) -> Result<Self, NoMemory>
        ensures { IfOk result (λ cpu. cpu ≡ at_reset marked) }
    {
        Ok(Cpu {
            registers: [0xA5; 32],
            sram: vec![in alloc; 0xA5; SRAM_BYTES]?,
            sreg: 0,
            sp: 0,
            rampz: 0,
            pc: 0,
        })
    }

    /// The register of this number, 0 to 31.
    pub fn register(&self, number: u8) -> u8
        requires { number < 32 }
        ensures { result ≡ register_of self.now number }
    {
        self.registers[number as usize]
    }

    /// Writes the register of this number, 0 to 31.
    pub fn set_register(&mut self, number: u8, value: u8)
        requires { number < 32 }
        ensures { self.new ≡ with_register self.old number value }
    {
        self.registers[number as usize] = value;
    }

    /// The byte of the SRAM at this data address, 0x0100 to 0x10FF.
    pub fn sram(&self, address: u16) -> u8
        requires from { 0x100 ≤ address }
        requires below { address < 0x1100 }
        ensures { result ≡ slice_index self.now.sram (address - 0x100) }
    {
        self.sram[(address - 0x100) as usize]
    }

    /// Writes the byte of the SRAM at this data address, 0x0100 to 0x10FF.
    pub fn set_sram(&mut self, address: u16, value: u8)
        requires from { 0x100 ≤ address }
        requires below { address < 0x1100 }
        ensures { self.new ≡ record self.old { sram = slice_set self.old.sram (address - 0x100) value } }
    {
        self.sram[(address - 0x100) as usize] = value;
    }

    /// SREG: from bit 0 the flags C, Z, N, V, S, H, T, I.
    pub fn sreg(&self) -> u8
        ensures { result ≡ self.now.sreg }
    {
        self.sreg
    }

    /// Writes SREG.
    pub fn set_sreg(&mut self, sreg: u8)
        ensures { self.new ≡ with_sreg self.old sreg }
    {
        self.sreg = sreg;
    }

    /// Whether the I flag is set.
    pub fn is_enabled(&self) -> bool
        ensures { result ≡ is_enabled self.now.sreg }
    {
        self.sreg / 128 % 2 != 0
    }

    /// Sets the I flag.
    pub fn enable(&mut self)
        ensures { self.new ≡ with_sreg self.old (enabled self.old.sreg) }
    {
        self.sreg = self.sreg % 128 + 128;
    }

    /// Clears the I flag.
    pub fn disable(&mut self)
        ensures { self.new ≡ with_sreg self.old (disabled self.old.sreg) }
    {
        self.sreg = self.sreg % 128;
    }

    /// SP, the data address of the byte that the next push writes.
    pub fn sp(&self) -> u16
        ensures { result ≡ self.now.sp }
    {
        self.sp
    }

    /// Writes SP.
    pub fn set_sp(&mut self, sp: u16)
        ensures { self.new ≡ record self.old { sp = sp } }
    {
        self.sp = sp;
    }

    /// RAMPZ.
    pub fn rampz(&self) -> u8
        ensures { result ≡ self.now.rampz }
    {
        self.rampz
    }

    /// Writes RAMPZ.
    pub fn set_rampz(&mut self, rampz: u8)
        ensures { self.new ≡ record self.old { rampz = rampz } }
    {
        self.rampz = rampz;
    }

    /// PC, the word address of the next instruction.
    pub fn pc(&self) -> u16
        ensures { result ≡ self.now.pc }
    {
        self.pc
    }

    /// Writes PC.
    pub fn set_pc(&mut self, pc: u16)
        ensures { self.new ≡ record self.old { pc = pc } }
    {
        self.pc = pc;
    }

    /// Moves PC some words on; behind word 65,535 comes word 0.
    pub fn advance(&mut self, words: u16)
        ensures { self.new ≡ moved words self.old }
    {
        self.pc = self.pc.wrapping_add(words);
    }

    /// Two registers as one number, the low byte in the first, whose number is 0 to 30.
    pub fn pair(&self, number: u8) -> u16
        requires { number < 31 }
        ensures { result ≡ pair_of self.now number }
    {
        u16::from(self.register(number)) + 256 * u16::from(self.register(number + 1))
    }

    /// Writes two registers, the low byte in the first, whose number is 0 to 30.
    pub fn set_pair(&mut self, number: u8, value: u16)
        requires { number < 31 }
        ensures { self.new ≡ with_pair self.old number value }
    {
        self.set_register(number, (value % 256) as u8);
        self.set_register(number + 1, (value / 256) as u8);
    }
}
