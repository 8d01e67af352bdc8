// One instruction.
ghost use Rattle.std.specs.Prelude.{◌≡◌, ◌+◌, ◌<◌};
ghost use Rattle.avr_isa.specs.Change.{WaitsInRegister};
ghost use Rattle.avr_isa.specs.Effect.{change};

use crate::cpu::Cpu;
use crate::effect::Effect;
use crate::image::Image;
use crate::{arithmetic, flags, flow, memory, transfer};
use avr_instr::Instr;

/// Changes the processor as the instruction says, and tells what is left to be done outside it.
///
/// It takes no memory and copies none.
pub fn step(cpu: &mut Cpu, flash: &Image, instr: Instr) -> Effect
    ensures cpu { cpu.new ≡ (change flash.now instr cpu.old).cpu }
    ensures effect { result ≡ (change flash.now instr cpu.old).effect }
    ensures waiting { WaitsInRegister result }
{
    match instr {
        Instr::Adc(d, r) => arithmetic::add(
            cpu,
            d.number(),
            cpu.register(r.number()),
            flags::carry_of(cpu.sreg()),
        ),
        Instr::Add(d, r) => arithmetic::add(cpu, d.number(), cpu.register(r.number()), 0),
        Instr::Adiw(d, k) => arithmetic::add_wide(cpu, d.number(), k.number()),
        Instr::And(d, r) => arithmetic::and(cpu, d.number(), cpu.register(r.number())),
        Instr::Andi(d, k) => arithmetic::and(cpu, d.number(), k),
        Instr::Asr(d) => arithmetic::shift_signed(cpu, d.number()),
        Instr::Brbc(s, k) => flow::branch(cpu, !flags::is_set(s.number(), cpu.sreg()), k.bits()),
        Instr::Brbs(s, k) => flow::branch(cpu, flags::is_set(s.number(), cpu.sreg()), k.bits()),
        Instr::Call(k) => flow::call(cpu, cpu.pc().wrapping_add(2), k),
        Instr::Cli => transfer::disable(cpu),
        Instr::Com(d) => arithmetic::complement(cpu, d.number()),
        Instr::Cp(d, r) => arithmetic::compare(cpu, d.number(), cpu.register(r.number())),
        Instr::Cpc(d, r) => arithmetic::compare_on(cpu, d.number(), cpu.register(r.number())),
        Instr::Cpi(d, k) => arithmetic::compare(cpu, d.number(), k),
        Instr::Dec(d) => arithmetic::decrement(cpu, d.number()),
        Instr::Eor(d, r) => arithmetic::exclusive_or(cpu, d.number(), cpu.register(r.number())),
        Instr::Icall => flow::call(cpu, cpu.pc().wrapping_add(1), cpu.pair(30)),
        Instr::Ijmp => flow::go(cpu, cpu.pair(30)),
        Instr::In(d, a) => memory::load(cpu, 1, d.number(), u16::from(a.number()) + 0x20),
        Instr::Inc(d) => arithmetic::increment(cpu, d.number()),
        Instr::Jmp(k) => flow::jump(cpu, k),
        Instr::LdX(d) => memory::load(cpu, 1, d.number(), cpu.pair(26)),
        Instr::LdXPlus(d) => memory::load_then_next(cpu, d.number()),
        Instr::LdMinusX(d) => memory::load_previous(cpu, d.number()),
        Instr::Ldd(d, b, q) => memory::load(
            cpu,
            1,
            d.number(),
            memory::displaced(cpu, b, q.number()),
        ),
        Instr::Ldi(d, k) => transfer::put(cpu, d.number(), k),
        Instr::Lds(d, k) => memory::load(cpu, 2, d.number(), k),
        Instr::LpmZ(d) => transfer::load_flash(cpu, flash, d.number()),
        Instr::LpmZPlus(d) => transfer::load_flash_then_next(cpu, flash, d.number()),
        Instr::Lsr(d) => arithmetic::shift(cpu, d.number(), 0),
        Instr::Mov(d, r) => transfer::copy(cpu, d.number(), r.number()),
        Instr::Movw(d, r) => transfer::copy_pair(cpu, d.number(), r.number()),
        Instr::Mul(d, r) => arithmetic::multiply(
            cpu,
            cpu.register(d.number()),
            cpu.register(r.number()),
        ),
        Instr::Neg(d) => arithmetic::negate(cpu, d.number()),
        Instr::Nop => transfer::pass(cpu),
        Instr::Or(d, r) => arithmetic::or(cpu, d.number(), cpu.register(r.number())),
        Instr::Ori(d, k) => arithmetic::or(cpu, d.number(), k),
        Instr::Out(a, r) => memory::store(
            cpu,
            1,
            u16::from(a.number()) + 0x20,
            cpu.register(r.number()),
        ),
        Instr::Pop(d) => memory::pop(cpu, d.number()),
        Instr::Push(r) => memory::push(cpu, cpu.register(r.number())),
        Instr::Rcall(k) => flow::call(
            cpu,
            cpu.pc().wrapping_add(1),
            flow::far_from(cpu.pc(), k.bits()),
        ),
        Instr::Ret => flow::return_(cpu),
        Instr::Reti => flow::return_from_interrupt(cpu),
        Instr::Rjmp(k) => flow::jump(cpu, flow::far_from(cpu.pc(), k.bits())),
        Instr::Ror(d) => arithmetic::rotate(cpu, d.number()),
        Instr::Sbc(d, r) => arithmetic::subtract_on(cpu, d.number(), cpu.register(r.number())),
        Instr::Sbci(d, k) => arithmetic::subtract_on(cpu, d.number(), k),
        Instr::Sbiw(d, k) => arithmetic::subtract_wide(cpu, d.number(), k.number()),
        Instr::Sei => transfer::enable(cpu),
        Instr::Sleep => flow::sleep(cpu),
        Instr::StX(r) => memory::store(cpu, 1, cpu.pair(26), cpu.register(r.number())),
        Instr::StXPlus(r) => memory::store_then_next(cpu, cpu.register(r.number())),
        Instr::StMinusX(r) => memory::store_previous(cpu, cpu.register(r.number())),
        Instr::Std(b, q, r) => memory::store(
            cpu,
            1,
            memory::displaced(cpu, b, q.number()),
            cpu.register(r.number()),
        ),
        Instr::Sts(k, r) => memory::store(cpu, 2, k, cpu.register(r.number())),
        Instr::Sub(d, r) => arithmetic::subtract(cpu, d.number(), cpu.register(r.number())),
        Instr::Subi(d, k) => arithmetic::subtract(cpu, d.number(), k),
    }
}
