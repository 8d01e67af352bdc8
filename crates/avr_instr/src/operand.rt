// The operands of instructions, of types that cannot leave their range.
ghost use Rattle.std.specs.Prelude.{◌≡◌, ◌≢◌, ◌≤◌, ◌<◌, ◌%◌, ℕ};

use std::marker::Model;

/// A pointer with a displacement: Y (r28 and r29) or Z (r30 and r31).
#[derive(Clone, Copy, Debug, PartialEq, Eq)]
pub enum Base {
    /// r28 and r29.
    Y,
    /// r30 and r31.
    Z,
}

/// One of the registers r0 to r31.
///
/// Contracts see its number.
#[derive(Clone, Copy, Debug, PartialEq, Eq)]
pub struct Register {
    number: u8,
}

impl Model for Register {
    ghost Value = { ℕ };

    ghost view = { λ x. x.number };

    ghost invariant = { λ x. x.number < 32 };

    ghost inverse = { λ n. record { number = n } };
}

impl Register {
    /// The register of this number, 0 to 31.
    pub fn new(number: u8) -> Self
        requires { number < 32 }
        ensures { result ≡ number }
    {
        Register { number }
    }

    /// Its number, 0 to 31.
    pub fn number(self) -> u8
        ensures value { result ≡ self }
        ensures below { result < 32 }
    {
        self.number
    }
}

/// One of the registers r16 to r31, the only ones that an instruction with a constant takes.
///
/// Contracts see its number.
#[derive(Clone, Copy, Debug, PartialEq, Eq)]
pub struct UpperRegister {
    number: u8,
}

impl Model for UpperRegister {
    ghost Value = { ℕ };

    ghost view = { λ x. x.number };

    ghost invariant = { λ x. (16 ≤ x.number) × (x.number < 32) };

    ghost inverse = { λ n. record { number = n } };
}

impl UpperRegister {
    /// The register of this number, 16 to 31.
    pub fn new(number: u8) -> Self
        requires from { 16 ≤ number }
        requires below { number < 32 }
        ensures { result ≡ number }
    {
        UpperRegister { number }
    }

    /// Its number, 16 to 31.
    pub fn number(self) -> u8
        ensures value { result ≡ self }
        ensures from { 16 ≤ result }
        ensures below { result < 32 }
    {
        self.number
    }
}

/// Two registers that MOVW copies: one of an even number, and the next.
///
/// Contracts see the even number.
#[derive(Clone, Copy, Debug, PartialEq, Eq)]
pub struct RegisterPair {
    number: u8,
}

impl Model for RegisterPair {
    ghost Value = { ℕ };

    ghost view = { λ x. x.number };

    ghost invariant = { λ x. (x.number < 32) × (x.number % 2 ≡ 0) };

    ghost inverse = { λ n. record { number = n } };
}

impl RegisterPair {
    /// The pair of this number, even, 0 to 30.
    pub fn new(number: u8) -> Self
        requires below { number < 32 }
        requires even { number % 2 ≡ 0 }
        ensures { result ≡ number }
    {
        RegisterPair { number }
    }

    /// The even number, even, 0 to 30.
    pub fn number(self) -> u8
        ensures value { result ≡ self }
        ensures below { result < 32 }
        ensures even { result % 2 ≡ 0 }
    {
        self.number
    }
}

/// Two registers that ADIW and SBIW take as one number: r24 and r25, X, Y or Z.
///
/// Contracts see the number of the low register.
#[derive(Clone, Copy, Debug, PartialEq, Eq)]
pub struct WidePair {
    number: u8,
}

impl Model for WidePair {
    ghost Value = { ℕ };

    ghost view = { λ x. x.number };

    ghost invariant = { λ x. (24 ≤ x.number) × (x.number < 32) × (x.number % 2 ≡ 0) };

    ghost inverse = { λ n. record { number = n } };
}

impl WidePair {
    /// The pair of this number, 24, 26, 28 or 30.
    pub fn new(number: u8) -> Self
        requires from { 24 ≤ number }
        requires below { number < 32 }
        requires even { number % 2 ≡ 0 }
        ensures { result ≡ number }
    {
        WidePair { number }
    }

    /// The number of the low register, 24, 26, 28 or 30.
    pub fn number(self) -> u8
        ensures value { result ≡ self }
        ensures from { 24 ≤ result }
        ensures below { result < 32 }
        ensures even { result % 2 ≡ 0 }
    {
        self.number
    }
}

/// One of the registers r0 to r31 other than r26 and r27, which are X.
///
/// Contracts see its number.
#[derive(Clone, Copy, Debug, PartialEq, Eq)]
pub struct RegisterBesideX {
    number: u8,
}

impl Model for RegisterBesideX {
    ghost Value = { ℕ };

    ghost view = { λ x. x.number };

    ghost invariant = { λ x. (x.number < 32) × (x.number ≢ 26) × (x.number ≢ 27) };

    ghost inverse = { λ n. record { number = n } };
}

impl RegisterBesideX {
    /// The register of this number, 0 to 31, not 26 or 27.
    pub fn new(number: u8) -> Self
        requires below { number < 32 }
        requires not_low { number ≢ 26 }
        requires not_high { number ≢ 27 }
        ensures { result ≡ number }
    {
        RegisterBesideX { number }
    }

    /// Its number, 0 to 31, not 26 or 27.
    pub fn number(self) -> u8
        ensures value { result ≡ self }
        ensures below { result < 32 }
        ensures not_low { result ≢ 26 }
        ensures not_high { result ≢ 27 }
    {
        self.number
    }
}

/// One of the registers r0 to r31 other than r30 and r31, which are Z.
///
/// Contracts see its number.
#[derive(Clone, Copy, Debug, PartialEq, Eq)]
pub struct RegisterBesideZ {
    number: u8,
}

impl Model for RegisterBesideZ {
    ghost Value = { ℕ };

    ghost view = { λ x. x.number };

    ghost invariant = { λ x. x.number < 30 };

    ghost inverse = { λ n. record { number = n } };
}

impl RegisterBesideZ {
    /// The register of this number, 0 to 29.
    pub fn new(number: u8) -> Self
        requires { number < 30 }
        ensures { result ≡ number }
    {
        RegisterBesideZ { number }
    }

    /// Its number, 0 to 29.
    pub fn number(self) -> u8
        ensures value { result ≡ self }
        ensures below { result < 30 }
    {
        self.number
    }
}

/// The address of an I/O register as IN and OUT name it, 0 to 63; its data address is 0x20 more.
///
/// Contracts see the number.
#[derive(Clone, Copy, Debug, PartialEq, Eq)]
pub struct IoAddress {
    number: u8,
}

impl Model for IoAddress {
    ghost Value = { ℕ };

    ghost view = { λ x. x.number };

    ghost invariant = { λ x. x.number < 64 };

    ghost inverse = { λ n. record { number = n } };
}

impl IoAddress {
    /// The I/O register of this number, 0 to 63.
    pub fn new(number: u8) -> Self
        requires { number < 64 }
        ensures { result ≡ number }
    {
        IoAddress { number }
    }

    /// The number, 0 to 63.
    pub fn number(self) -> u8
        ensures value { result ≡ self }
        ensures below { result < 64 }
    {
        self.number
    }
}

/// A number of six bits: what ADIW adds, SBIW takes away, or LDD and STD add to an address.
///
/// Contracts see the number.
#[derive(Clone, Copy, Debug, PartialEq, Eq)]
pub struct SixBits {
    number: u8,
}

impl Model for SixBits {
    ghost Value = { ℕ };

    ghost view = { λ x. x.number };

    ghost invariant = { λ x. x.number < 64 };

    ghost inverse = { λ n. record { number = n } };
}

impl SixBits {
    /// The constant of this number, 0 to 63.
    pub fn new(number: u8) -> Self
        requires { number < 64 }
        ensures { result ≡ number }
    {
        SixBits { number }
    }

    /// The number, 0 to 63.
    pub fn number(self) -> u8
        ensures value { result ≡ self }
        ensures below { result < 64 }
    {
        self.number
    }
}

/// A bit of SREG, from 0: C, Z, N, V, S, H, T, I.
///
/// Contracts see its number.
#[derive(Clone, Copy, Debug, PartialEq, Eq)]
pub struct FlagBit {
    number: u8,
}

impl Model for FlagBit {
    ghost Value = { ℕ };

    ghost view = { λ x. x.number };

    ghost invariant = { λ x. x.number < 8 };

    ghost inverse = { λ n. record { number = n } };
}

impl FlagBit {
    /// The flag of this number, 0 to 7.
    pub fn new(number: u8) -> Self
        requires { number < 8 }
        ensures { result ≡ number }
    {
        FlagBit { number }
    }

    /// Its number, 0 to 7.
    pub fn number(self) -> u8
        ensures value { result ≡ self }
        ensures below { result < 8 }
    {
        self.number
    }
}

/// A distance of -64 to 63 words from the next instruction, as the seven bits of its two's complement.
///
/// Contracts see these bits as a number, 0 to 127.
#[derive(Clone, Copy, Debug, PartialEq, Eq)]
pub struct NearOffset {
    bits: u8,
}

impl Model for NearOffset {
    ghost Value = { ℕ };

    ghost view = { λ x. x.bits };

    ghost invariant = { λ x. x.bits < 128 };

    ghost inverse = { λ n. record { bits = n } };
}

impl NearOffset {
    /// The distance with these seven bits.
    pub fn new(bits: u8) -> Self
        requires { bits < 128 }
        ensures { result ≡ bits }
    {
        NearOffset { bits }
    }

    /// The seven bits, 0 to 127.
    pub fn bits(self) -> u8
        ensures value { result ≡ self }
        ensures below { result < 128 }
    {
        self.bits
    }
}

/// A distance of -2,048 to 2,047 words from the next instruction, as the twelve bits of its two's complement.
///
/// Contracts see these bits as a number, 0 to 4,095.
#[derive(Clone, Copy, Debug, PartialEq, Eq)]
pub struct FarOffset {
    bits: u16,
}

impl Model for FarOffset {
    ghost Value = { ℕ };

    ghost view = { λ x. x.bits };

    ghost invariant = { λ x. x.bits < 4096 };

    ghost inverse = { λ n. record { bits = n } };
}

impl FarOffset {
    /// The distance with these twelve bits.
    pub fn new(bits: u16) -> Self
        requires { bits < 4096 }
        ensures { result ≡ bits }
    {
        FarOffset { bits }
    }

    /// The twelve bits, 0 to 4,095.
    pub fn bits(self) -> u16
        ensures value { result ≡ self }
        ensures below { result < 4096 }
    {
        self.bits
    }
}
