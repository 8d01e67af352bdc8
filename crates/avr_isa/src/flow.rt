// Jumps, branches, calls, returns and SLEEP.
ghost use Rattle.std.specs.Prelude.{◌≡◌, ◌+◌, ◌%◌, ◌<◌, ◌≤◌, ℕ, []};
ghost use Rattle.avr_instr.specs.declared.instr.Instr.TheVariants.{Sleep as SleepInstr, Reti};
ghost use Rattle.avr_isa.specs.Change.{WaitsInRegister};
ghost use Rattle.avr_isa.specs.Flow.{jumped, far_from, near_from, branched, subroutine_called, returned};
ghost use Rattle.avr_isa.specs.Effect.{change};

use crate::cpu::Cpu;
use crate::effect::Effect;
use crate::memory;

// Goes to a word address; a jump to itself that no interrupt can end is a stop.
pub(crate) fn jump(cpu: &mut Cpu, to: u16) -> Effect
    ensures cpu { cpu.new ≡ (jumped cpu.old to).cpu }
    ensures effect { result ≡ (jumped cpu.old to).effect }
    ensures waiting { WaitsInRegister result }
{
    if to == cpu.pc() && !cpu.is_enabled() {
        return Effect::Halt;
    }
    cpu.set_pc(to);
    Effect::Next
}

// Goes to a word address.
pub(crate) fn go(cpu: &mut Cpu, to: u16) -> Effect
    ensures cpu { cpu.new ≡ record cpu.old { pc = to } }
    ensures effect { result ≡ Effect.Next }
{
    cpu.set_pc(to);
    Effect::Next
}

// The word address at a signed distance of twelve bits from the next instruction.
pub(crate) fn far_from(pc: u16, offset: u16) -> u16
    requires { offset < 4096 }
    ensures { result ≡ far_from pc offset }
{
    let extended = if offset < 0x800 {
        offset
    } else {
        offset + 0xF000
    };
    pc.wrapping_add(1).wrapping_add(extended)
}

// The word address at a signed distance of seven bits from the next instruction.
fn near_from(pc: u16, offset: u8) -> u16
    requires { offset < 128 }
    ensures { result ≡ near_from pc offset }
{
    let offset = u16::from(offset);
    let extended = if offset < 0x40 {
        offset
    } else {
        offset + 0xFF80
    };
    pc.wrapping_add(1).wrapping_add(extended)
}

// Goes to a distance where the branch is taken.
pub(crate) fn branch(cpu: &mut Cpu, taken: bool, offset: u8) -> Effect
    requires { offset < 128 }
    ensures cpu { cpu.new ≡ (branched cpu.old taken offset).cpu }
    ensures effect { result ≡ (branched cpu.old taken offset).effect }
    ensures waiting { WaitsInRegister result }
{
    if taken {
        cpu.set_pc(near_from(cpu.pc(), offset));
    } else {
        cpu.advance(1);
    }
    Effect::Next
}

// Calls the code at a word address, from an instruction that ends before another.
pub(crate) fn call(cpu: &mut Cpu, behind: u16, to: u16) -> Effect
    ensures cpu { cpu.new ≡ (subroutine_called cpu.old behind to).cpu }
    ensures effect { result ≡ (subroutine_called cpu.old behind to).effect }
    ensures waiting { WaitsInRegister result }
{
    if !memory::can_push_two(cpu) {
        return Effect::Outside;
    }
    memory::push_two(cpu, behind);
    cpu.set_pc(to);
    Effect::Next
}

// Returns from a call.
pub(crate) fn return_(cpu: &mut Cpu) -> Effect
    ensures cpu { cpu.new ≡ (returned cpu.old).cpu }
    ensures effect { result ≡ (returned cpu.old).effect }
    ensures waiting { WaitsInRegister result }
{
    if !memory::can_pop_two(cpu) {
        return Effect::Outside;
    }
    memory::pop_two(cpu);
    Effect::Next
}

// Returns from an interrupt.
pub(crate) fn return_from_interrupt(cpu: &mut Cpu) -> Effect
    ensures cpu { cpu.new ≡ (change [] Reti cpu.old).cpu }
    ensures effect { result ≡ (change [] Reti cpu.old).effect }
    ensures waiting { WaitsInRegister result }
{
    if !memory::can_pop_two(cpu) {
        return Effect::Outside;
    }
    memory::pop_two(cpu);
    cpu.enable();
    Effect::Next
}

// Waits for an interrupt, where the I flag is set.
pub(crate) fn sleep(cpu: &mut Cpu) -> Effect
    ensures cpu { cpu.new ≡ (change [] SleepInstr cpu.old).cpu }
    ensures effect { result ≡ (change [] SleepInstr cpu.old).effect }
    ensures waiting { WaitsInRegister result }
{
    if cpu.is_enabled() {
        return Effect::Sleep;
    }
    cpu.advance(1);
    Effect::Next
}
