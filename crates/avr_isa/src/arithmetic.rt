// Sums, differences, logical operations and shifts.
ghost use Rattle.std.specs.Prelude.{◌≡◌, ◌+◌, ◌-◌, ◌*◌, ◌/◌, ◌%◌, ◌<◌, ◌≤◌, ℕ, bit_and, bit_or, bit_xor};
ghost use Rattle.avr_isa.specs.Change.{register_of, pair_of};
ghost use Rattle.avr_isa.specs.Flags.{difference_of, flags_of_difference, flags_of_complement, flags_of_wide_sum, flags_of_wide_difference, carry_of, sticky};
ghost use Rattle.avr_isa.specs.Effect.{flagging, resulting, resulting_wide, added, subtracted, subtracted_on, combined, shifted, counted, multiplied};

use crate::cpu::Cpu;
use crate::effect::Effect;
use crate::flags::{self, Flags};

// Leaves these flags behind an instruction of one word.
fn flag(cpu: &mut Cpu, flags: Flags) -> Effect
    ensures cpu { cpu.new ≡ (flagging cpu.old flags).cpu }
    ensures effect { result ≡ (flagging cpu.old flags).effect }
{
    cpu.advance(1);
    cpu.set_sreg(flags::with_flags(cpu.sreg(), flags));
    Effect::Next
}

// Leaves this value in a register, and these flags.
fn finish(cpu: &mut Cpu, d: u8, value: u8, flags: Flags) -> Effect
    requires { d < 32 }
    ensures cpu { cpu.new ≡ (resulting cpu.old d value flags).cpu }
    ensures effect { result ≡ (resulting cpu.old d value flags).effect }
{
    cpu.set_register(d, value);
    flag(cpu, flags)
}

// Leaves this value in two registers, and these flags.
fn finish_wide(cpu: &mut Cpu, d: u8, value: u16, flags: Flags) -> Effect
    requires { d < 31 }
    ensures cpu { cpu.new ≡ (resulting_wide cpu.old d value flags).cpu }
    ensures effect { result ≡ (resulting_wide cpu.old d value flags).effect }
{
    cpu.set_pair(d, value);
    flag(cpu, flags)
}

// The byte that is left of a difference.
fn difference(a: u8, b: u8, borrow: u8) -> u8
    requires { borrow < 2 }
    ensures { result ≡ difference_of a b borrow }
{
    let taken = u16::from(b) + u16::from(borrow);
    ((u16::from(a) + 256 - taken) % 256) as u8
}

// Adds a byte and a carry.
pub(crate) fn add(cpu: &mut Cpu, d: u8, b: u8, carry: u8) -> Effect
    requires register { d < 32 }
    requires carry { carry < 2 }
    ensures cpu { cpu.new ≡ (added cpu.old d b carry).cpu }
    ensures effect { result ≡ (added cpu.old d b carry).effect }
{
    let a = cpu.register(d);
    let sum = u16::from(a) + u16::from(b) + u16::from(carry);
    finish(cpu, d, (sum % 256) as u8, flags::flags_of_sum(a, b, carry))
}

// Takes a byte away.
pub(crate) fn subtract(cpu: &mut Cpu, d: u8, b: u8) -> Effect
    requires { d < 32 }
    ensures cpu { cpu.new ≡ (subtracted cpu.old d b).cpu }
    ensures effect { result ≡ (subtracted cpu.old d b).effect }
{
    let a = cpu.register(d);
    finish(
        cpu,
        d,
        difference(a, b, 0),
        flags::flags_of_difference(a, b, 0),
    )
}

// Takes a byte and the borrow of an earlier difference away.
pub(crate) fn subtract_on(cpu: &mut Cpu, d: u8, b: u8) -> Effect
    requires { d < 32 }
    ensures cpu { cpu.new ≡ (subtracted_on cpu.old d b).cpu }
    ensures effect { result ≡ (subtracted_on cpu.old d b).effect }
{
    let a = cpu.register(d);
    let sreg = cpu.sreg();
    let borrow = flags::carry_of(sreg);
    let flags = flags::sticky(sreg, flags::flags_of_difference(a, b, borrow));
    finish(cpu, d, difference(a, b, borrow), flags)
}

// Compares a register with a byte.
pub(crate) fn compare(cpu: &mut Cpu, d: u8, b: u8) -> Effect
    requires { d < 32 }
    ensures cpu { cpu.new ≡ (flagging cpu.old (flags_of_difference (register_of cpu.old d) b 0)).cpu }
    ensures effect { result ≡ (flagging cpu.old (flags_of_difference (register_of cpu.old d) b 0)).effect }
{
    let a = cpu.register(d);
    flag(cpu, flags::flags_of_difference(a, b, 0))
}

// Compares a register with a byte and the borrow of an earlier comparison.
pub(crate) fn compare_on(cpu: &mut Cpu, d: u8, b: u8) -> Effect
    requires { d < 32 }
    ensures cpu { cpu.new ≡ (flagging cpu.old (sticky cpu.old.sreg (flags_of_difference (register_of cpu.old d) b (carry_of cpu.old.sreg)))).cpu }
    ensures effect { result ≡ (flagging cpu.old (sticky cpu.old.sreg (flags_of_difference (register_of cpu.old d) b (carry_of cpu.old.sreg)))).effect }
{
    let a = cpu.register(d);
    let sreg = cpu.sreg();
    let borrow = flags::carry_of(sreg);
    flag(
        cpu,
        flags::sticky(sreg, flags::flags_of_difference(a, b, borrow)),
    )
}

// Takes a register from 0.
pub(crate) fn negate(cpu: &mut Cpu, d: u8) -> Effect
    requires { d < 32 }
    ensures cpu { let a = register_of cpu.old d in cpu.new ≡ (resulting cpu.old d (difference_of 0 a 0) (flags_of_difference 0 a 0)).cpu }
    ensures effect { let a = register_of cpu.old d in result ≡ (resulting cpu.old d (difference_of 0 a 0) (flags_of_difference 0 a 0)).effect }
{
    let a = cpu.register(d);
    finish(
        cpu,
        d,
        difference(0, a, 0),
        flags::flags_of_difference(0, a, 0),
    )
}

// Leaves the result of a logical operation.
fn join(cpu: &mut Cpu, d: u8, value: u8) -> Effect
    requires { d < 32 }
    ensures cpu { cpu.new ≡ (combined cpu.old d value).cpu }
    ensures effect { result ≡ (combined cpu.old d value).effect }
{
    let sreg = cpu.sreg();
    finish(cpu, d, value, flags::flags_of_logic(sreg, value))
}

// Joins a register and a byte by and.
pub(crate) fn and(cpu: &mut Cpu, d: u8, b: u8) -> Effect
    requires { d < 32 }
    ensures cpu { cpu.new ≡ (combined cpu.old d (bit_and (register_of cpu.old d) b)).cpu }
    ensures effect { result ≡ (combined cpu.old d (bit_and (register_of cpu.old d) b)).effect }
{
    let value = cpu.register(d) & b;
    join(cpu, d, value)
}

// Joins a register and a byte by or.
pub(crate) fn or(cpu: &mut Cpu, d: u8, b: u8) -> Effect
    requires { d < 32 }
    ensures cpu { cpu.new ≡ (combined cpu.old d (bit_or (register_of cpu.old d) b)).cpu }
    ensures effect { result ≡ (combined cpu.old d (bit_or (register_of cpu.old d) b)).effect }
{
    let value = cpu.register(d) | b;
    join(cpu, d, value)
}

// Joins a register and a byte by exclusive or.
pub(crate) fn exclusive_or(cpu: &mut Cpu, d: u8, b: u8) -> Effect
    requires { d < 32 }
    ensures cpu { cpu.new ≡ (combined cpu.old d (bit_xor (register_of cpu.old d) b)).cpu }
    ensures effect { result ≡ (combined cpu.old d (bit_xor (register_of cpu.old d) b)).effect }
{
    let value = cpu.register(d) ^ b;
    join(cpu, d, value)
}

// Turns each bit of a register.
pub(crate) fn complement(cpu: &mut Cpu, d: u8) -> Effect
    requires { d < 32 }
    ensures cpu { let r = 255 - register_of cpu.old d in cpu.new ≡ (resulting cpu.old d r (flags_of_complement cpu.old.sreg r)).cpu }
    ensures effect { let r = 255 - register_of cpu.old d in result ≡ (resulting cpu.old d r (flags_of_complement cpu.old.sreg r)).effect }
{
    let r = 255 - cpu.register(d);
    let mut flags = flags::flags_of_logic(cpu.sreg(), r);
    flags.carry = true;
    finish(cpu, d, r, flags)
}

// Leaves one more or one less, which overflows to one byte.
fn count(cpu: &mut Cpu, d: u8, value: u8, overflows_to: u8) -> Effect
    requires { d < 32 }
    ensures cpu { cpu.new ≡ (counted cpu.old d value overflows_to).cpu }
    ensures effect { result ≡ (counted cpu.old d value overflows_to).effect }
{
    let mut flags = flags::flags_of_logic(cpu.sreg(), value);
    flags.overflow = value == overflows_to;
    finish(cpu, d, value, flags)
}

// Adds 1.
pub(crate) fn increment(cpu: &mut Cpu, d: u8) -> Effect
    requires { d < 32 }
    ensures cpu { cpu.new ≡ (counted cpu.old d ((register_of cpu.old d + 1) % 256) 0x80).cpu }
    ensures effect { result ≡ (counted cpu.old d ((register_of cpu.old d + 1) % 256) 0x80).effect }
{
    let value = cpu.register(d).wrapping_add(1);
    count(cpu, d, value, 0x80)
}

// Takes 1 away.
pub(crate) fn decrement(cpu: &mut Cpu, d: u8) -> Effect
    requires { d < 32 }
    ensures cpu { cpu.new ≡ (counted cpu.old d ((register_of cpu.old d + 255) % 256) 0x7F).cpu }
    ensures effect { result ≡ (counted cpu.old d ((register_of cpu.old d + 255) % 256) 0x7F).effect }
{
    let value = cpu.register(d).wrapping_sub(1);
    count(cpu, d, value, 0x7F)
}

// Shifts a register to the right, and brings this bit in.
pub(crate) fn shift(cpu: &mut Cpu, d: u8, top: u8) -> Effect
    requires register { d < 32 }
    requires bit { top < 2 }
    ensures cpu { cpu.new ≡ (shifted cpu.old d (register_of cpu.old d / 2 + top * 128)).cpu }
    ensures effect { result ≡ (shifted cpu.old d (register_of cpu.old d / 2 + top * 128)).effect }
{
    let a = cpu.register(d);
    let r = a / 2 + top * 128;
    let sreg = cpu.sreg();
    finish(cpu, d, r, flags::flags_of_shift(sreg, a, r))
}

// Shifts a register to the right, and keeps its sign.
pub(crate) fn shift_signed(cpu: &mut Cpu, d: u8) -> Effect
    requires { d < 32 }
    ensures cpu { let a = register_of cpu.old d in cpu.new ≡ (shifted cpu.old d (a / 2 + a / 128 * 128)).cpu }
    ensures effect { let a = register_of cpu.old d in result ≡ (shifted cpu.old d (a / 2 + a / 128 * 128)).effect }
{
    let top = cpu.register(d) / 128;
    shift(cpu, d, top)
}

// Shifts a register to the right, and brings the carry in.
pub(crate) fn rotate(cpu: &mut Cpu, d: u8) -> Effect
    requires { d < 32 }
    ensures cpu { cpu.new ≡ (shifted cpu.old d (register_of cpu.old d / 2 + carry_of cpu.old.sreg * 128)).cpu }
    ensures effect { result ≡ (shifted cpu.old d (register_of cpu.old d / 2 + carry_of cpu.old.sreg * 128)).effect }
{
    let top = flags::carry_of(cpu.sreg());
    shift(cpu, d, top)
}

// Adds a small constant to two registers.
pub(crate) fn add_wide(cpu: &mut Cpu, d: u8, k: u8) -> Effect
    requires { d < 31 }
    ensures cpu { let a = pair_of cpu.old d in cpu.new ≡ (resulting_wide cpu.old d ((a + k) % 65536) (flags_of_wide_sum cpu.old.sreg a k)).cpu }
    ensures effect { let a = pair_of cpu.old d in result ≡ (resulting_wide cpu.old d ((a + k) % 65536) (flags_of_wide_sum cpu.old.sreg a k)).effect }
{
    let a = cpu.pair(d);
    let sreg = cpu.sreg();
    finish_wide(
        cpu,
        d,
        a.wrapping_add(u16::from(k)),
        flags::flags_of_wide_sum(sreg, a, k),
    )
}

// Takes a small constant from two registers.
pub(crate) fn subtract_wide(cpu: &mut Cpu, d: u8, k: u8) -> Effect
    requires { d < 31 }
    ensures cpu { let a = pair_of cpu.old d in cpu.new ≡ (resulting_wide cpu.old d ((a + 65536 - k) % 65536) (flags_of_wide_difference cpu.old.sreg a k)).cpu }
    ensures effect { let a = pair_of cpu.old d in result ≡ (resulting_wide cpu.old d ((a + 65536 - k) % 65536)
        (flags_of_wide_difference cpu.old.sreg a k)).effect }
{
    let a = cpu.pair(d);
    let sreg = cpu.sreg();
    finish_wide(
        cpu,
        d,
        a.wrapping_sub(u16::from(k)),
        flags::flags_of_wide_difference(sreg, a, k),
    )
}

// Multiplies two bytes into r1 and r0.
pub(crate) fn multiply(cpu: &mut Cpu, a: u8, b: u8) -> Effect
    ensures cpu { cpu.new ≡ (multiplied cpu.old (a * b)).cpu }
    ensures effect { result ≡ (multiplied cpu.old (a * b)).effect }
{
    let product = u16::from(a) * u16::from(b);
    cpu.advance(1);
    cpu.set_pair(0, product);
    cpu.set_sreg(flags::sreg_of_product(cpu.sreg(), product));
    Effect::Next
}
