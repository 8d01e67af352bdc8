// The flags of SREG.
ghost use Rattle.std.specs.Prelude.{◌≡◌, ◌<◌, ◌≤◌, ◌+◌, ℕ};
ghost use Rattle.avr_isa.specs.Flags.{number, is_set, carry_of, with_flags, flags_of_sum, flags_of_difference, sticky, flags_of_logic};
ghost use Rattle.avr_isa.specs.Flags.{flags_of_shift, flags_of_wide_sum, flags_of_wide_difference, sreg_of_product};

/// The flags that a sum, a difference, a logical operation or a shift leaves; S is N exclusive or V.
#[derive(Clone, Copy, Debug, PartialEq, Eq)]
pub struct Flags {
    /// H.
    pub half_carry: bool,
    /// V.
    pub overflow: bool,
    /// N.
    pub negative: bool,
    /// Z.
    pub zero: bool,
    /// C.
    pub carry: bool,
}

// Whether a bit of SREG is set.
pub(crate) fn is_set(bit: u8, sreg: u8) -> bool
    requires { bit < 8 }
    ensures { result ≡ is_set bit sreg }
{
    (sreg >> bit) % 2 == 1
}

// The C flag as a number.
pub(crate) fn carry_of(sreg: u8) -> u8
    ensures value { result ≡ carry_of sreg }
    ensures below { result < 2 }
{
    sreg % 2
}

// SREG with these flags.
pub(crate) fn with_flags(sreg: u8, flags: Flags) -> u8
    ensures { result ≡ with_flags sreg flags }
{
    let sign = flags.negative != flags.overflow;
    sreg / 64 * 64
        + u8::from(flags.half_carry) * 32
        + u8::from(sign) * 16
        + u8::from(flags.overflow) * 8
        + u8::from(flags.negative) * 4
        + u8::from(flags.zero) * 2
        + u8::from(flags.carry)
}

// The flags of a sum of two bytes and a carry.
pub(crate) fn flags_of_sum(a: u8, b: u8, carry: u8) -> Flags
    requires { carry < 2 }
    ensures { result ≡ flags_of_sum a b carry }
{
    let sum = u16::from(a) + u16::from(b) + u16::from(carry);
    let r = sum % 256;
    let (a7, b7, r7) = (a >= 128, b >= 128, r >= 128);
    Flags {
        half_carry: a % 16 + b % 16 + carry > 15,
        overflow: a7 && b7 && !r7 || !a7 && !b7 && r7,
        negative: r7,
        zero: r == 0,
        carry: sum > 255,
    }
}

// The flags of a difference of two bytes and a borrow.
pub(crate) fn flags_of_difference(a: u8, b: u8, borrow: u8) -> Flags
    requires { borrow < 2 }
    ensures { result ≡ flags_of_difference a b borrow }
{
    let taken = u16::from(b) + u16::from(borrow);
    let r = (u16::from(a) + 256 - taken) % 256;
    let (a7, b7, r7) = (a >= 128, b >= 128, r >= 128);
    Flags {
        half_carry: a % 16 < b % 16 + borrow,
        overflow: a7 && !b7 && !r7 || !a7 && b7 && r7,
        negative: r7,
        zero: r == 0,
        carry: u16::from(a) < taken,
    }
}

// These flags with Z set only where it was set before.
pub(crate) fn sticky(sreg: u8, flags: Flags) -> Flags
    ensures { result ≡ sticky sreg flags }
{
    Flags {
        half_carry: flags.half_carry,
        overflow: flags.overflow,
        negative: flags.negative,
        zero: flags.zero && is_set(1, sreg),
        carry: flags.carry,
    }
}

// The flags of a logical operation with this result.
pub(crate) fn flags_of_logic(sreg: u8, r: u8) -> Flags
    ensures { result ≡ flags_of_logic sreg r }
{
    Flags {
        half_carry: is_set(5, sreg),
        overflow: false,
        negative: r >= 128,
        zero: r == 0,
        carry: is_set(0, sreg),
    }
}

// The flags of a shift to the right of a byte, with this result.
pub(crate) fn flags_of_shift(sreg: u8, a: u8, r: u8) -> Flags
    ensures { result ≡ flags_of_shift sreg a r }
{
    let negative = r >= 128;
    let carry = a % 2 == 1;
    Flags {
        half_carry: is_set(5, sreg),
        overflow: negative != carry,
        negative,
        zero: r == 0,
        carry,
    }
}

// The flags of a sum of two bytes and a small constant.
pub(crate) fn flags_of_wide_sum(sreg: u8, a: u16, k: u8) -> Flags
    ensures { result ≡ flags_of_wide_sum sreg a k }
{
    let sum = u32::from(a) + u32::from(k);
    let r = sum % 65536;
    Flags {
        half_carry: is_set(5, sreg),
        overflow: a < 0x8000 && r >= 0x8000,
        negative: r >= 0x8000,
        zero: r == 0,
        carry: sum > 65535,
    }
}

// The flags of a difference of two bytes and a small constant.
pub(crate) fn flags_of_wide_difference(sreg: u8, a: u16, k: u8) -> Flags
    ensures { result ≡ flags_of_wide_difference sreg a k }
{
    let r = (u32::from(a) + 65536 - u32::from(k)) % 65536;
    Flags {
        half_carry: is_set(5, sreg),
        overflow: a >= 0x8000 && r < 0x8000,
        negative: r >= 0x8000,
        zero: r == 0,
        carry: a < u16::from(k),
    }
}

// SREG behind a product of two bytes.
pub(crate) fn sreg_of_product(sreg: u8, product: u16) -> u8
    ensures { result ≡ sreg_of_product sreg product }
{
    sreg / 4 * 4 + u8::from(product == 0) * 2 + (product / 0x8000) as u8
}
