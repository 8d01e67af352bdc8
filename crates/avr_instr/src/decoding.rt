// The instruction that words spell.
ghost use Rattle.std.specs.Prelude.{◌≡◌, ◌≢◌, ◌<◌, ◌≤◌, ◌%◌, ◌/◌, ◌^◌, ℕ, Some, IfSome, IsNone};
ghost use Rattle.avr_instr.specs.Spelled.{Spelled};
ghost use Rattle.avr_instr.specs.Decoded.{decoded, d_of, r_of, upper_of, constant_of, wide_pair_of, small_of, address_of, base_of, displacement_of};
ghost use Rattle.avr_instr.specs.Decoded.{is_beside_x, in_nibble_0, in_nibbles_1_2, in_nibbles_3_7, in_nibbles_8_10, in_loads, in_stores, in_fixed};
ghost use Rattle.avr_instr.specs.Decoded.{in_one_register, in_pairs, in_nibble_9, in_nibbles_11_15};

use crate::instr::Instr;
use crate::operand::{
    Base, FarOffset, FlagBit, IoAddress, NearOffset, Register, RegisterBesideX, RegisterBesideZ,
    RegisterPair, SixBits, UpperRegister, WidePair,
};

/// The instruction that a word spells with the one that follows it, and None exactly where they spell none.
pub fn decode(word: u16, next: u16) -> Option<Instr>
    ensures spelled { IfSome result (λ i. Spelled word next i) }
    ensures none { IsNone result → (i : _) → Spelled word next i → ⊥ }
    ensures decoded { result ≡ decoded word next }
{
    match word {
        0x0000..=0x0FFF => in_nibble_0(word),
        0x1000..=0x2FFF => in_nibbles_1_2(word),
        0x3000..=0x7FFF => in_nibbles_3_7(word),
        0x8000..=0x8FFF => Some(in_nibbles_8_10(word)),
        0x9000..=0x9FFF => in_nibble_9(word, next),
        0xA000..=0xAFFF => Some(in_nibbles_8_10(word)),
        0xB000..=0xFFFF => in_nibbles_11_15(word),
    }
}

fn in_nibble_0(word: u16) -> Option<Instr>
    ensures { result ≡ in_nibble_0 word }
{
    if word == 0 {
        return Some(Instr::Nop);
    }
    if word / 256 == 1 {
        let d = RegisterPair::new((word / 16 % 16) as u8 * 2);
        return Some(Instr::Movw(d, RegisterPair::new((word % 16) as u8 * 2)));
    }
    match word / 1024 {
        1 => Some(Instr::Cpc(d_of(word), r_of(word))),
        2 => Some(Instr::Sbc(d_of(word), r_of(word))),
        3 => Some(Instr::Add(d_of(word), r_of(word))),
        _ => None,
    }
}

fn in_nibbles_1_2(word: u16) -> Option<Instr>
    ensures { result ≡ in_nibbles_1_2 word }
{
    match word / 1024 {
        5 => Some(Instr::Cp(d_of(word), r_of(word))),
        6 => Some(Instr::Sub(d_of(word), r_of(word))),
        7 => Some(Instr::Adc(d_of(word), r_of(word))),
        8 => Some(Instr::And(d_of(word), r_of(word))),
        9 => Some(Instr::Eor(d_of(word), r_of(word))),
        10 => Some(Instr::Or(d_of(word), r_of(word))),
        11 => Some(Instr::Mov(d_of(word), r_of(word))),
        _ => None,
    }
}

fn in_nibbles_3_7(word: u16) -> Option<Instr>
    ensures { result ≡ in_nibbles_3_7 word }
{
    match word / 4096 {
        3 => Some(Instr::Cpi(upper_of(word), constant_of(word))),
        4 => Some(Instr::Sbci(upper_of(word), constant_of(word))),
        5 => Some(Instr::Subi(upper_of(word), constant_of(word))),
        6 => Some(Instr::Ori(upper_of(word), constant_of(word))),
        7 => Some(Instr::Andi(upper_of(word), constant_of(word))),
        _ => None,
    }
}

fn in_nibbles_8_10(word: u16) -> Instr
    ensures { Some result ≡ in_nibbles_8_10 word }
{
    if word / 512 % 2 == 0 {
        Instr::Ldd(d_of(word), base_of(word), displacement_of(word))
    } else {
        Instr::Std(base_of(word), displacement_of(word), d_of(word))
    }
}

fn in_nibble_9(word: u16, next: u16) -> Option<Instr>
    ensures { result ≡ in_nibble_9 word next }
{
    match word / 512 {
        72 => in_loads(word, next),
        73 => in_stores(word, next),
        74 => in_one_register(word, next),
        _ => in_pairs(word),
    }
}

fn in_loads(word: u16, next: u16) -> Option<Instr>
    ensures { result ≡ in_loads word next }
{
    let d = (word / 16 % 32) as u8;
    match word % 16 {
        0 => Some(Instr::Lds(d_of(word), next)),
        4 => Some(Instr::LpmZ(d_of(word))),
        5 if d < 30 => Some(Instr::LpmZPlus(RegisterBesideZ::new(d))),
        12 => Some(Instr::LdX(d_of(word))),
        13 if d != 26 && d != 27 => Some(Instr::LdXPlus(RegisterBesideX::new(d))),
        14 if d != 26 && d != 27 => Some(Instr::LdMinusX(RegisterBesideX::new(d))),
        15 => Some(Instr::Pop(d_of(word))),
        _ => None,
    }
}

fn in_stores(word: u16, next: u16) -> Option<Instr>
    ensures { result ≡ in_stores word next }
{
    let d = (word / 16 % 32) as u8;
    match word % 16 {
        0 => Some(Instr::Sts(next, d_of(word))),
        12 => Some(Instr::StX(d_of(word))),
        13 if d != 26 && d != 27 => Some(Instr::StXPlus(RegisterBesideX::new(d))),
        14 if d != 26 && d != 27 => Some(Instr::StMinusX(RegisterBesideX::new(d))),
        15 => Some(Instr::Push(d_of(word))),
        _ => None,
    }
}

fn in_one_register(word: u16, next: u16) -> Option<Instr>
    ensures { result ≡ in_one_register word next }
{
    match word % 16 {
        0 => Some(Instr::Com(d_of(word))),
        1 => Some(Instr::Neg(d_of(word))),
        3 => Some(Instr::Inc(d_of(word))),
        5 => Some(Instr::Asr(d_of(word))),
        6 => Some(Instr::Lsr(d_of(word))),
        7 => Some(Instr::Ror(d_of(word))),
        10 => Some(Instr::Dec(d_of(word))),
        _ => in_fixed(word, next),
    }
}

fn in_fixed(word: u16, next: u16) -> Option<Instr>
    ensures { result ≡ in_fixed word next }
{
    match word {
        0x9409 => Some(Instr::Ijmp),
        0x940C => Some(Instr::Jmp(next)),
        0x940E => Some(Instr::Call(next)),
        0x9478 => Some(Instr::Sei),
        0x94F8 => Some(Instr::Cli),
        0x9508 => Some(Instr::Ret),
        0x9509 => Some(Instr::Icall),
        0x9518 => Some(Instr::Reti),
        0x9588 => Some(Instr::Sleep),
        _ => None,
    }
}

fn in_pairs(word: u16) -> Option<Instr>
    ensures { result ≡ in_pairs word }
{
    if word / 256 == 0x96 {
        return Some(Instr::Adiw(wide_pair_of(word), small_of(word)));
    }
    if word / 256 == 0x97 {
        return Some(Instr::Sbiw(wide_pair_of(word), small_of(word)));
    }
    if word / 1024 == 39 {
        return Some(Instr::Mul(d_of(word), r_of(word)));
    }
    None
}

fn in_nibbles_11_15(word: u16) -> Option<Instr>
    ensures { result ≡ in_nibbles_11_15 word }
{
    match word / 1024 {
        44 | 45 => Some(Instr::In(d_of(word), address_of(word))),
        46 | 47 => Some(Instr::Out(address_of(word), d_of(word))),
        48..=51 => Some(Instr::Rjmp(FarOffset::new(word % 4096))),
        52..=55 => Some(Instr::Rcall(FarOffset::new(word % 4096))),
        56..=59 => Some(Instr::Ldi(upper_of(word), constant_of(word))),
        60 => Some(Instr::Brbs(flag_of(word), offset_of(word))),
        61 => Some(Instr::Brbc(flag_of(word), offset_of(word))),
        _ => None,
    }
}

// ---- ---d dddd ----
fn d_of(word: u16) -> Register
    ensures { result ≡ d_of word }
{
    Register::new((word / 16 % 32) as u8)
}

// ---- --r- ---- rrrr
fn r_of(word: u16) -> Register
    ensures { result ≡ r_of word }
{
    Register::new((word / 512 % 2) as u8 * 16 + (word % 16) as u8)
}

// ---- ---- dddd ----, from r16
fn upper_of(word: u16) -> UpperRegister
    ensures { result ≡ upper_of word }
{
    UpperRegister::new(16 + (word / 16 % 16) as u8)
}

// ---- KKKK ---- KKKK
fn constant_of(word: u16) -> u8
    ensures { result ≡ constant_of word }
{
    (word / 256 % 16) as u8 * 16 + (word % 16) as u8
}

// ---- ---- --dd ----, the pairs from r24
fn wide_pair_of(word: u16) -> WidePair
    ensures { result ≡ wide_pair_of word }
{
    WidePair::new(24 + (word / 16 % 4) as u8 * 2)
}

// ---- ---- KK-- KKKK
fn small_of(word: u16) -> SixBits
    ensures { result ≡ small_of word }
{
    SixBits::new((word / 64 % 4) as u8 * 16 + (word % 16) as u8)
}

// ---- -AA- ---- AAAA
fn address_of(word: u16) -> IoAddress
    ensures { result ≡ address_of word }
{
    IoAddress::new((word / 512 % 4) as u8 * 16 + (word % 16) as u8)
}

// ---- ---- ---- y---
fn base_of(word: u16) -> Base
    ensures { result ≡ base_of word }
{
    if word / 8 % 2 == 1 { Base::Y } else { Base::Z }
}

// --q- qq-- ---- -qqq
fn displacement_of(word: u16) -> SixBits
    ensures { result ≡ displacement_of word }
{
    SixBits::new((word / 8192 % 2) as u8 * 32 + (word / 1024 % 4) as u8 * 8 + (word % 8) as u8)
}

// ---- ---- ---- -sss
fn flag_of(word: u16) -> FlagBit
    ensures { result ≡ word % 8 }
{
    FlagBit::new((word % 8) as u8)
}

// ---- --kk kkkk k---
fn offset_of(word: u16) -> NearOffset
    ensures { result ≡ word / 8 % 128 }
{
    NearOffset::new((word / 8 % 128) as u8)
}

/// What is decoded is spelled so, what is spelled is decoded, and two words spell at most one instruction.
pub fn spelling_both_ways()
    ensures only { (w n : ℕ) (i : _) → w < 2 ^ 16 → n < 2 ^ 16 → decoded w n ≡ Some i → Spelled w n i }
    ensures each { (w n : ℕ) (i : _) → Spelled w n i → decoded w n ≡ Some i }
    ensures once { (w n : ℕ) (i j : _) → Spelled w n i → Spelled w n j → i ≡ j }
{}
