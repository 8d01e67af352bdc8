// Accesses to data addresses, and the stack.
ghost use Rattle.std.specs.Prelude.{◌≡◌, ◌+◌, ◌-◌, ◌*◌, ◌/◌, ◌%◌, ◌<◌, ◌≤◌, ℕ, IsTrue};
ghost use Rattle.avr_isa.specs.Change.{WaitsInRegister, going, moved, pair_of, with_pair, with_next, previous};
ghost use Rattle.avr_isa.specs.Access.{stored, loaded, displaced, low_of, pointer_behind, then_next, pushed, popped, can_push_two, can_pop_two};
ghost use Rattle.avr_isa.specs.Access.{with_pushed, with_popped};

use crate::cpu::Cpu;
use crate::effect::Effect;
use avr_instr::Base;

// Stores a byte at a data address, as an instruction of this many words.
pub(crate) fn store(cpu: &mut Cpu, words: u16, address: u16, value: u8) -> Effect
    ensures cpu { cpu.new ≡ (stored cpu.old (moved words cpu.old) address value).cpu }
    ensures effect { result ≡ (stored cpu.old (moved words cpu.old) address value).effect }
    ensures waiting { WaitsInRegister result }
{
    if address >= 0x1100 {
        return Effect::Outside;
    }
    cpu.advance(words);
    put(cpu, address, value)
}

// Puts a byte at a data address below 0x1100.
fn put(cpu: &mut Cpu, address: u16, value: u8) -> Effect
    requires { address < 0x1100 }
    ensures cpu { cpu.new ≡ (stored cpu.old cpu.old address value).cpu }
    ensures effect { result ≡ (stored cpu.old cpu.old address value).effect }
    ensures waiting { WaitsInRegister result }
{
    match address {
        0..=0x1F => cpu.set_register(address as u8, value),
        0x5B => cpu.set_rampz(value),
        0x5D => cpu.set_sp(cpu.sp() / 256 * 256 + u16::from(value)),
        0x5E => cpu.set_sp(u16::from(value) * 256 + cpu.sp() % 256),
        0x5F => cpu.set_sreg(value),
        0x20..=0xFF => return Effect::WriteDevice(address as u8, value),
        _ => cpu.set_sram(address, value),
    }
    Effect::Next
}

// Loads a byte from a data address into a register, as an instruction of this many words.
pub(crate) fn load(cpu: &mut Cpu, words: u16, d: u8, address: u16) -> Effect
    requires { d < 32 }
    ensures cpu { cpu.new ≡ (loaded cpu.old (moved words cpu.old) d address).cpu }
    ensures effect { result ≡ (loaded cpu.old (moved words cpu.old) d address).effect }
    ensures waiting { WaitsInRegister result }
{
    if address >= 0x1100 {
        return Effect::Outside;
    }
    cpu.advance(words);
    get(cpu, d, address)
}

// Gets the byte at a data address below 0x1100 into a register.
fn get(cpu: &mut Cpu, d: u8, address: u16) -> Effect
    requires register { d < 32 }
    requires below { address < 0x1100 }
    ensures cpu { cpu.new ≡ (loaded cpu.old cpu.old d address).cpu }
    ensures effect { result ≡ (loaded cpu.old cpu.old d address).effect }
    ensures waiting { WaitsInRegister result }
{
    let value = match address {
        0..=0x1F => cpu.register(address as u8),
        0x5B => cpu.rampz(),
        0x5D => (cpu.sp() % 256) as u8,
        0x5E => (cpu.sp() / 256) as u8,
        0x5F => cpu.sreg(),
        0x20..=0xFF => return Effect::ReadDevice(address as u8, d),
        _ => cpu.sram(address),
    };
    cpu.set_register(d, value);
    Effect::Next
}

// The data address at a displacement from a pointer.
pub(crate) fn displaced(cpu: &Cpu, base: Base, q: u8) -> u16
    ensures { result ≡ displaced cpu.now base q }
{
    let low = match base {
        Base::Y => 28,
        Base::Z => 30,
    };
    cpu.pair(low).wrapping_add(u16::from(q))
}

// Adds 1 to a pointer.
pub(crate) fn increment(cpu: &mut Cpu, low: u8)
    requires { low < 31 }
    ensures { cpu.new ≡ with_next cpu.old low }
{
    cpu.set_pair(low, cpu.pair(low).wrapping_add(1));
}

// Loads the byte at X into a register, and then adds 1 to X.
pub(crate) fn load_then_next(cpu: &mut Cpu, d: u8) -> Effect
    requires { d < 32 }
    ensures cpu { cpu.new ≡ (then_next 26 (loaded cpu.old (moved 1 cpu.old) d (pair_of cpu.old 26))).cpu }
    ensures effect { result ≡ (then_next 26 (loaded cpu.old (moved 1 cpu.old) d (pair_of cpu.old 26))).effect }
    ensures waiting { WaitsInRegister result }
{
    let effect = load(cpu, 1, d, cpu.pair(26));
    point_behind(cpu, effect)
}

// Stores a byte at X, and then adds 1 to X.
pub(crate) fn store_then_next(cpu: &mut Cpu, value: u8) -> Effect
    ensures cpu { cpu.new ≡ (then_next 26 (stored cpu.old (moved 1 cpu.old) (pair_of cpu.old 26) value)).cpu }
    ensures effect { result ≡ (then_next 26 (stored cpu.old (moved 1 cpu.old) (pair_of cpu.old 26) value)).effect }
    ensures waiting { WaitsInRegister result }
{
    let effect = store(cpu, 1, cpu.pair(26), value);
    point_behind(cpu, effect)
}

// Adds 1 to X behind an access, unless it was to nothing.
fn point_behind(cpu: &mut Cpu, effect: Effect) -> Effect
    requires { WaitsInRegister effect }
    ensures cpu { cpu.new ≡ pointer_behind effect 26 cpu.old }
    ensures effect { result ≡ effect }
{
    match effect {
        Effect::Outside => {}
        _ => increment(cpu, 26),
    }
    effect
}

// Takes 1 from X, and then loads the byte at X into a register.
pub(crate) fn load_previous(cpu: &mut Cpu, d: u8) -> Effect
    requires { d < 32 }
    ensures cpu { let x = previous (pair_of cpu.old 26) in cpu.new ≡ (loaded cpu.old (with_pair (moved 1 cpu.old) 26 x) d x).cpu }
    ensures effect { let x = previous (pair_of cpu.old 26) in result ≡ (loaded cpu.old (with_pair (moved 1 cpu.old) 26 x) d x).effect }
    ensures waiting { WaitsInRegister result }
{
    let address = cpu.pair(26).wrapping_sub(1);
    if address >= 0x1100 {
        return Effect::Outside;
    }
    cpu.advance(1);
    cpu.set_pair(26, address);
    get(cpu, d, address)
}

// Takes 1 from X, and then stores a byte at X.
pub(crate) fn store_previous(cpu: &mut Cpu, value: u8) -> Effect
    ensures cpu { let x = previous (pair_of cpu.old 26) in cpu.new ≡ (stored cpu.old (with_pair (moved 1 cpu.old) 26 x) x value).cpu }
    ensures effect { let x = previous (pair_of cpu.old 26) in result ≡ (stored cpu.old (with_pair (moved 1 cpu.old) 26 x) x value).effect }
    ensures waiting { WaitsInRegister result }
{
    let address = cpu.pair(26).wrapping_sub(1);
    if address >= 0x1100 {
        return Effect::Outside;
    }
    cpu.advance(1);
    cpu.set_pair(26, address);
    put(cpu, address, value)
}

// Pushes a byte.
pub(crate) fn push(cpu: &mut Cpu, value: u8) -> Effect
    ensures cpu { cpu.new ≡ (pushed cpu.old (moved 1 cpu.old) value).cpu }
    ensures effect { result ≡ (pushed cpu.old (moved 1 cpu.old) value).effect }
    ensures waiting { WaitsInRegister result }
{
    let sp = cpu.sp();
    if sp < 0x100 || sp >= 0x1100 {
        return Effect::Outside;
    }
    cpu.advance(1);
    cpu.set_sram(sp, value);
    cpu.set_sp(sp - 1);
    Effect::Next
}

// Pops a byte into a register.
pub(crate) fn pop(cpu: &mut Cpu, d: u8) -> Effect
    requires { d < 32 }
    ensures cpu { cpu.new ≡ (popped cpu.old (moved 1 cpu.old) d).cpu }
    ensures effect { result ≡ (popped cpu.old (moved 1 cpu.old) d).effect }
    ensures waiting { WaitsInRegister result }
{
    let sp = cpu.sp();
    if sp < 0xFF || sp >= 0x10FF {
        return Effect::Outside;
    }
    cpu.advance(1);
    let value = cpu.sram(sp + 1);
    cpu.set_sp(sp + 1);
    cpu.set_register(d, value);
    Effect::Next
}

// Whether both bytes of a word address that a call or an interrupt pushes lie in SRAM.
pub fn can_push_two(cpu: &Cpu) -> bool
    ensures { result ≡ can_push_two cpu.now.sp }
{
    0x100 < cpu.sp() && cpu.sp() < 0x1100
}

// Whether both bytes of a word address that a return pops lie in SRAM.
pub(crate) fn can_pop_two(cpu: &Cpu) -> bool
    ensures { result ≡ can_pop_two cpu.now.sp }
{
    cpu.sp() >= 0xFF && cpu.sp() < 0x10FE
}

// Pushes a word address, low byte first.
pub fn push_two(cpu: &mut Cpu, address: u16)
    requires { IsTrue (can_push_two cpu.old.sp) }
    ensures { cpu.new ≡ with_pushed cpu.old address }
{
    let sp = cpu.sp();
    cpu.set_sram(sp, (address % 256) as u8);
    cpu.set_sram(sp - 1, (address / 256) as u8);
    cpu.set_sp(sp - 2);
}

// Returns to the word address that is popped, high byte first.
pub(crate) fn pop_two(cpu: &mut Cpu)
    requires { IsTrue (can_pop_two cpu.old.sp) }
    ensures { cpu.new ≡ with_popped cpu.old }
{
    let sp = cpu.sp();
    let high = cpu.sram(sp + 1);
    let low = cpu.sram(sp + 2);
    cpu.set_pc(u16::from(high) * 256 + u16::from(low));
    cpu.set_sp(sp + 2);
}
