//! The instructions of the AVR ATmega128, and the words that spell them, both ways.
#![tactic(auto)]

pub mod decoding;
pub mod instr;
pub mod operand;
pub mod spelling;

pub use decoding::{decode, spelling_both_ways};
pub use instr::Instr;
pub use operand::{
    Base, FarOffset, FlagBit, IoAddress, NearOffset, Register, RegisterBesideX, RegisterBesideZ,
    RegisterPair, SixBits, UpperRegister, WidePair,
};
pub use spelling::encode;
