// The words of an instruction.
ghost use Rattle.std.specs.Prelude.{◌≡◌, ◌≤◌, ◌<◌, ◌+◌, ◌*◌, ℕ};
ghost use Rattle.avr_instr.specs.Spelled.{InRange, first_word, second_word, AreRegisters, AreUpperAndByte, IsRegister, IsWidePair, IsPair, IsBesideX};
ghost use Rattle.avr_instr.specs.Spelled.{IsBesideZ, IsSixBits, AreFlagAndOffset, two_registers, with_constant, with_pair, with_address};
ghost use Rattle.avr_instr.specs.Spelled.{with_displacement, base_bit};
ghost use Rattle.avr_instr.specs.declared.instr.Instr.TheVariants.{Movw};

use crate::instr::Instr;
use crate::operand::{
    Base, FlagBit, IoAddress, NearOffset, Register, RegisterBesideX, RegisterPair, SixBits,
    UpperRegister, WidePair,
};

/// The words that spell the instruction: the first, and the second where the instruction has two.
pub fn encode(instr: Instr) -> (u16, Option<u16>)
    ensures operands { InRange instr }
    ensures first { result.0 ≡ first_word instr }
    ensures second { result.1 ≡ second_word instr }
{
    let first = match instr {
        Instr::Adc(d, r) => two_registers(0x1C00, d, r),
        Instr::Add(d, r) => two_registers(0x0C00, d, r),
        Instr::Adiw(d, k) => with_pair(0x9600, d, k),
        Instr::And(d, r) => two_registers(0x2000, d, r),
        Instr::Andi(d, k) => with_constant(0x7000, d, k),
        Instr::Asr(d) => one_register(0x9405, d),
        Instr::Brbc(s, k) => branch(0xF400, s, k),
        Instr::Brbs(s, k) => branch(0xF000, s, k),
        Instr::Call(k) => return (0x940E, Some(k)),
        Instr::Cli => 0x94F8,
        Instr::Com(d) => one_register(0x9400, d),
        Instr::Cp(d, r) => two_registers(0x1400, d, r),
        Instr::Cpc(d, r) => two_registers(0x0400, d, r),
        Instr::Cpi(d, k) => with_constant(0x3000, d, k),
        Instr::Dec(d) => one_register(0x940A, d),
        Instr::Eor(d, r) => two_registers(0x2400, d, r),
        Instr::Icall => 0x9509,
        Instr::Ijmp => 0x9409,
        Instr::In(d, a) => with_address(0xB000, d, a),
        Instr::Inc(d) => one_register(0x9403, d),
        Instr::Jmp(k) => return (0x940C, Some(k)),
        Instr::LdX(d) => one_register(0x900C, d),
        Instr::LdXPlus(d) => beside_x(0x900D, d),
        Instr::LdMinusX(d) => beside_x(0x900E, d),
        Instr::Ldd(d, b, q) => with_displacement(0x8000, d, b, q),
        Instr::Ldi(d, k) => with_constant(0xE000, d, k),
        Instr::Lds(d, k) => return (one_register(0x9000, d), Some(k)),
        Instr::LpmZ(d) => one_register(0x9004, d),
        Instr::LpmZPlus(d) => 0x9005 + u16::from(d.number()) * 16,
        Instr::Lsr(d) => one_register(0x9406, d),
        Instr::Mov(d, r) => two_registers(0x2C00, d, r),
        Instr::Movw(d, r) => two_pairs(d, r),
        Instr::Mul(d, r) => two_registers(0x9C00, d, r),
        Instr::Neg(d) => one_register(0x9401, d),
        Instr::Nop => 0,
        Instr::Or(d, r) => two_registers(0x2800, d, r),
        Instr::Ori(d, k) => with_constant(0x6000, d, k),
        Instr::Out(a, r) => with_address(0xB800, r, a),
        Instr::Pop(d) => one_register(0x900F, d),
        Instr::Push(r) => one_register(0x920F, r),
        Instr::Rcall(k) => 0xD000 + k.bits(),
        Instr::Ret => 0x9508,
        Instr::Reti => 0x9518,
        Instr::Rjmp(k) => 0xC000 + k.bits(),
        Instr::Ror(d) => one_register(0x9407, d),
        Instr::Sbc(d, r) => two_registers(0x0800, d, r),
        Instr::Sbci(d, k) => with_constant(0x4000, d, k),
        Instr::Sbiw(d, k) => with_pair(0x9700, d, k),
        Instr::Sei => 0x9478,
        Instr::Sleep => 0x9588,
        Instr::StX(r) => one_register(0x920C, r),
        Instr::StXPlus(r) => beside_x(0x920D, r),
        Instr::StMinusX(r) => beside_x(0x920E, r),
        Instr::Std(b, q, r) => with_displacement(0x8200, r, b, q),
        Instr::Sts(k, r) => return (one_register(0x9200, r), Some(k)),
        Instr::Sub(d, r) => two_registers(0x1800, d, r),
        Instr::Subi(d, k) => with_constant(0x5000, d, k),
    };
    (first, None)
}

fn two_registers(opcode: u16, d: Register, r: Register) -> u16
    requires { opcode ≤ 0x9C00 }
    ensures operands { AreRegisters d r }
    ensures word { result ≡ opcode + two_registers d r }
{
    let r = u16::from(r.number());
    opcode + r / 16 * 512 + u16::from(d.number()) * 16 + r % 16
}

fn with_constant(opcode: u16, d: UpperRegister, k: u8) -> u16
    requires { opcode ≤ 0xE000 }
    ensures operands { AreUpperAndByte d k }
    ensures word { result ≡ opcode + with_constant d k }
{
    opcode + u16::from(k / 16) * 256 + u16::from(d.number() - 16) * 16 + u16::from(k % 16)
}

fn with_pair(opcode: u16, d: WidePair, k: SixBits) -> u16
    requires { opcode ≤ 0x9700 }
    ensures pair { IsWidePair d }
    ensures constant { IsSixBits k }
    ensures word { result ≡ opcode + with_pair d k }
{
    let k = u16::from(k.number());
    opcode + k / 16 * 64 + u16::from(d.number() - 24) / 2 * 16 + k % 16
}

fn one_register(opcode: u16, d: Register) -> u16
    requires { opcode ≤ 0x940A }
    ensures operands { IsRegister d }
    ensures word { result ≡ opcode + d * 16 }
{
    opcode + u16::from(d.number()) * 16
}

fn beside_x(opcode: u16, d: RegisterBesideX) -> u16
    requires { opcode ≤ 0x920E }
    ensures operands { IsBesideX d }
    ensures word { result ≡ opcode + d * 16 }
{
    opcode + u16::from(d.number()) * 16
}

fn two_pairs(d: RegisterPair, r: RegisterPair) -> u16
    ensures first { IsPair d }
    ensures second { IsPair r }
    ensures word { result ≡ first_word (Movw d r) }
{
    0x0100 + u16::from(d.number() / 2) * 16 + u16::from(r.number() / 2)
}

fn branch(opcode: u16, s: FlagBit, k: NearOffset) -> u16
    requires { opcode ≤ 0xF400 }
    ensures operands { AreFlagAndOffset s k }
    ensures word { result ≡ opcode + k * 8 + s }
{
    opcode + u16::from(k.bits()) * 8 + u16::from(s.number())
}

fn with_address(opcode: u16, d: Register, a: IoAddress) -> u16
    requires { opcode ≤ 0xB800 }
    ensures register { IsRegister d }
    ensures address { IsSixBits a }
    ensures word { result ≡ opcode + with_address d a }
{
    let a = u16::from(a.number());
    opcode + a / 16 * 512 + u16::from(d.number()) * 16 + a % 16
}

fn with_displacement(opcode: u16, d: Register, b: Base, q: SixBits) -> u16
    requires { opcode ≤ 0x8200 }
    ensures register { IsRegister d }
    ensures displacement { IsSixBits q }
    ensures word { result ≡ opcode + with_displacement d (base_bit b) q }
{
    let q = u16::from(q.number());
    let y = base_bit(b);
    opcode + q / 32 * 8192 + q / 8 % 4 * 1024 + u16::from(d.number()) * 16 + y * 8 + q % 8
}

fn base_bit(base: Base) -> u16
    ensures bit { result ≡ base_bit base }
    ensures below { result < 2 }
{
    match base {
        Base::Y => 1,
        Base::Z => 0,
    }
}
