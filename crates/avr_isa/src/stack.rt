// How deep an instruction reaches with the stack.
ghost use Rattle.std.specs.Prelude.{◌≡◌, ◌≤◌, ◌+◌};
ghost use Rattle.avr_isa.specs.Stack.{stack_use, lowest_by};

use crate::cpu::Cpu;
use crate::memory::displaced;
use avr_instr::Instr;

/// What an instruction does that tells how deep the stack is.
#[derive(Clone, Copy, Debug, PartialEq, Eq)]
pub enum StackUse {
    /// It pushes nothing, and stores nothing.
    Nothing,
    /// It pushes one byte, at this data address.
    PushesByte(u16),
    /// It pushes a word address: its low byte at this data address, and its high byte at the one below.
    PushesWord(u16),
    /// It stores a byte at this data address, which may be that of SPL.
    Stores(u16),
}

/// What the instruction does that tells how deep the stack is, on a processor that it has not changed yet.
pub fn stack_use(instr: &Instr, cpu: &Cpu) -> StackUse
    ensures { result ≡ stack_use instr.now cpu.now }
{
    match instr {
        Instr::Call(_) | Instr::Icall | Instr::Rcall(_) => StackUse::PushesWord(cpu.sp()),
        Instr::Push(_) => StackUse::PushesByte(cpu.sp()),
        Instr::Out(a, _) => StackUse::Stores(u16::from(a.number()) + 0x20),
        Instr::StX(_) | Instr::StXPlus(_) => StackUse::Stores(cpu.pair(26)),
        Instr::StMinusX(_) => StackUse::Stores(cpu.pair(26).wrapping_sub(1)),
        Instr::Std(b, q, _) => StackUse::Stores(displaced(cpu, *b, q.number())),
        Instr::Sts(k, _) => StackUse::Stores(*k),
        _ => StackUse::Nothing,
    }
}

/// The lowest data address that the stack has reached, behind an instruction with this use that has left this SP.
pub fn lowest_by(stack: StackUse, sp: u16, lowest: u16) -> u16
    ensures { result ≡ lowest_by stack sp lowest }
{
    match stack {
        StackUse::Nothing => lowest,
        StackUse::PushesByte(address) => lowest.min(address),
        StackUse::PushesWord(address) => lowest.min(address).min(address.wrapping_sub(1)),
        StackUse::Stores(0x5D) if sp <= 0x10FF => lowest.min(sp + 1),
        StackUse::Stores(0x5D) => 0,
        StackUse::Stores(_) => lowest,
    }
}
