// Copies between registers, from the flash, and of the I flag.
ghost use Rattle.std.specs.Prelude.{◌≡◌, ◌+◌, ◌*◌, ◌<◌, ◌≤◌, ℕ};
ghost use Rattle.avr_isa.specs.Cpu.{flash_byte, enabled, disabled};
ghost use Rattle.avr_isa.specs.Change.{going, moved, register_of, with_register, with_sreg, with_next, pair_of};

use crate::cpu::Cpu;
use crate::effect::Effect;
use crate::image::Image;
use crate::memory;

// Puts a value into a register.
pub(crate) fn put(cpu: &mut Cpu, d: u8, value: u8) -> Effect
    requires { d < 32 }
    ensures cpu { cpu.new ≡ with_register (moved 1 cpu.old) d value }
    ensures effect { result ≡ Effect.Next }
{
    cpu.advance(1);
    cpu.set_register(d, value);
    Effect::Next
}

// Copies a register.
pub(crate) fn copy(cpu: &mut Cpu, d: u8, r: u8) -> Effect
    requires to { d < 32 }
    requires from { r < 32 }
    ensures cpu { cpu.new ≡ with_register (moved 1 cpu.old) d (register_of cpu.old r) }
    ensures effect { result ≡ Effect.Next }
{
    let value = cpu.register(r);
    put(cpu, d, value)
}

// Copies two registers.
pub(crate) fn copy_pair(cpu: &mut Cpu, d: u8, r: u8) -> Effect
    requires to { d < 31 }
    requires from { r < 31 }
    ensures cpu { cpu.new ≡ with_register (with_register (moved 1 cpu.old) d (register_of cpu.old r)) (d + 1) (register_of cpu.old (r + 1)) }
    ensures effect { result ≡ Effect.Next }
{
    let low = cpu.register(r);
    let high = cpu.register(r + 1);
    cpu.advance(1);
    cpu.set_register(d, low);
    cpu.set_register(d + 1, high);
    Effect::Next
}

// Loads the byte of the flash at Z.
pub(crate) fn load_flash(cpu: &mut Cpu, flash: &Image, d: u8) -> Effect
    requires { d < 32 }
    ensures cpu { cpu.new ≡ with_register (moved 1 cpu.old) d (flash_byte flash.now (pair_of cpu.old 30)) }
    ensures effect { result ≡ Effect.Next }
{
    let value = flash.byte(cpu.pair(30) as usize);
    put(cpu, d, value)
}

// Loads the byte of the flash at Z, and then adds 1 to Z.
pub(crate) fn load_flash_then_next(cpu: &mut Cpu, flash: &Image, d: u8) -> Effect
    requires { d < 32 }
    ensures cpu { cpu.new ≡ with_next (with_register (moved 1 cpu.old) d (flash_byte flash.now (pair_of cpu.old 30))) 30 }
    ensures effect { result ≡ Effect.Next }
{
    let effect = load_flash(cpu, flash, d);
    memory::increment(cpu, 30);
    effect
}

// Does nothing but go on.
pub(crate) fn pass(cpu: &mut Cpu) -> Effect
    ensures cpu { cpu.new ≡ moved 1 cpu.old }
    ensures effect { result ≡ Effect.Next }
{
    cpu.advance(1);
    Effect::Next
}

// Sets the I flag.
pub(crate) fn enable(cpu: &mut Cpu) -> Effect
    ensures cpu { cpu.new ≡ with_sreg (moved 1 cpu.old) (enabled cpu.old.sreg) }
    ensures effect { result ≡ Effect.Next }
{
    cpu.enable();
    pass(cpu)
}

// Clears the I flag.
pub(crate) fn disable(cpu: &mut Cpu) -> Effect
    ensures cpu { cpu.new ≡ with_sreg (moved 1 cpu.old) (disabled cpu.old.sreg) }
    ensures effect { result ≡ Effect.Next }
{
    cpu.disable();
    pass(cpu)
}
