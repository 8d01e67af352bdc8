// Instructions.
use crate::operand::{
    Base, FarOffset, FlagBit, IoAddress, NearOffset, Register, RegisterBesideX, RegisterBesideZ,
    RegisterPair, SixBits, UpperRegister, WidePair,
};

/// An instruction of the AVR, with its operands in the order of the assembler.
///
/// The names and their order are those of the AVR Instruction Set Manual. Addresses of code and distances count words, addresses of data count bytes.
#[derive(Clone, Copy, Debug, PartialEq, Eq)]
pub enum Instr {
    /// ADC: adds two registers and the carry.
    Adc(Register, Register),
    /// ADD: adds two registers.
    Add(Register, Register),
    /// ADIW: adds a constant to a pair of registers.
    Adiw(WidePair, SixBits),
    /// AND: joins two registers by and.
    And(Register, Register),
    /// ANDI: joins a register and a constant by and.
    Andi(UpperRegister, u8),
    /// ASR: shifts a register right and keeps its sign.
    Asr(Register),
    /// BRBC: goes to a distance from the next instruction where the flag is clear.
    Brbc(FlagBit, NearOffset),
    /// BRBS: goes to a distance from the next instruction where the flag is set.
    Brbs(FlagBit, NearOffset),
    /// CALL: calls the code at a word address.
    Call(u16),
    /// CLI: clears the I flag.
    Cli,
    /// COM: turns each bit of a register.
    Com(Register),
    /// CP: compares two registers.
    Cp(Register, Register),
    /// CPC: compares two registers with the borrow of an earlier comparison.
    Cpc(Register, Register),
    /// CPI: compares a register with a constant.
    Cpi(UpperRegister, u8),
    /// DEC: takes 1 from a register.
    Dec(Register),
    /// EOR: joins two registers by exclusive or.
    Eor(Register, Register),
    /// ICALL: calls the code at the word address in Z.
    Icall,
    /// IJMP: goes to the word address in Z.
    Ijmp,
    /// IN: reads an I/O register.
    In(Register, IoAddress),
    /// INC: adds 1 to a register.
    Inc(Register),
    /// JMP: goes to a word address.
    Jmp(u16),
    /// LD Rd, X: loads the byte at X.
    LdX(Register),
    /// LD Rd, X+: loads the byte at X, and then adds 1 to X.
    LdXPlus(RegisterBesideX),
    /// LD Rd, -X: takes 1 from X, and then loads the byte at X.
    LdMinusX(RegisterBesideX),
    /// LDD: loads the byte at a displacement from a pointer.
    Ldd(Register, Base, SixBits),
    /// LDI: loads a constant.
    Ldi(UpperRegister, u8),
    /// LDS: loads the byte at a data address.
    Lds(Register, u16),
    /// LPM Rd, Z: loads the byte of the flash at Z.
    LpmZ(Register),
    /// LPM Rd, Z+: loads the byte of the flash at Z, and then adds 1 to Z.
    LpmZPlus(RegisterBesideZ),
    /// LSR: shifts a register right.
    Lsr(Register),
    /// MOV: copies a register.
    Mov(Register, Register),
    /// MOVW: copies two registers.
    Movw(RegisterPair, RegisterPair),
    /// MUL: multiplies two registers into r1 and r0.
    Mul(Register, Register),
    /// NEG: takes a register from 0.
    Neg(Register),
    /// NOP: does nothing.
    Nop,
    /// OR: joins two registers by or.
    Or(Register, Register),
    /// ORI: joins a register and a constant by or.
    Ori(UpperRegister, u8),
    /// OUT: writes a register to an I/O register.
    Out(IoAddress, Register),
    /// POP: takes a register from the stack.
    Pop(Register),
    /// PUSH: puts a register on the stack.
    Push(Register),
    /// RCALL: calls the code at a distance from the next instruction.
    Rcall(FarOffset),
    /// RET: returns from a call.
    Ret,
    /// RETI: returns from an interrupt.
    Reti,
    /// RJMP: goes to a distance from the next instruction.
    Rjmp(FarOffset),
    /// ROR: shifts a register right through the carry.
    Ror(Register),
    /// SBC: takes a register and the borrow from a register.
    Sbc(Register, Register),
    /// SBCI: takes a constant and the borrow from a register.
    Sbci(UpperRegister, u8),
    /// SBIW: takes a constant from a pair of registers.
    Sbiw(WidePair, SixBits),
    /// SEI: sets the I flag.
    Sei,
    /// SLEEP: waits for an interrupt.
    Sleep,
    /// ST X, Rr: stores a byte at X.
    StX(Register),
    /// ST X+, Rr: stores a byte at X, and then adds 1 to X.
    StXPlus(RegisterBesideX),
    /// ST -X, Rr: takes 1 from X, and then stores a byte at X.
    StMinusX(RegisterBesideX),
    /// STD: stores a byte at a displacement from a pointer.
    Std(Base, SixBits, Register),
    /// STS: stores a register at a data address.
    Sts(u16, Register),
    /// SUB: takes a register from a register.
    Sub(Register, Register),
    /// SUBI: takes a constant from a register.
    Subi(UpperRegister, u8),
}
