// Programs of one procedure.
use crate::instrs::{
    call, compute, copy, known, leave, load, local, pop, push, same, stop, store, write,
};
use crate::shown::{add, program, show};
use std::alloc::Global;
use std::io;
use vg_base::NoMemory;
use vg_lin::{Instr, Memory, Operand, Operator, Plain, Registers};
use vg_lin_states::LinProgram;

// The program of one procedure that is no method.
fn alone(alloc: Global, widths: &[u8], code: &[Instr]) -> Result<LinProgram, NoMemory> {
    let mut all = program(alloc)?;
    add(alloc, &mut all, None, 0, 0, widths, code)?;
    Ok(all)
}

fn shows(rt: &HostRuntime, name: &str, widths: &[u8], code: &[Instr]) -> io::Result<()> {
    show(rt, name, alone(rt.alloc(), widths, code), &[], &[], 40)
}

/// Numbers and locals.
pub fn values(rt: &HostRuntime) -> io::Result<()> {
    let edges = [
        copy(0, known(0x8000_0000)),
        compute(Operator::Divide, 4, 1, local(0), known(0xFFFF_FFFF)),
        compute(Operator::ShiftRight, 4, 1, local(1), known(24)),
        write(local(1)),
        compute(Operator::Remainder, 4, 1, local(0), known(0xFFFF_FFFF)),
        write(local(1)),
        compute(Operator::Minus, 1, 1, known(0), known(1)),
        write(local(1)),
        compute(Operator::ShiftRight, 4, 1, local(1), known(8)),
        write(local(1)),
        Instr::Idle,
    ];
    shows(
        rt,
        "the least number by -1, and 0 - 1 in one byte",
        &[4, 4],
        &edges,
    )?;
    let cut = [copy(0, known(0x1FF)), write(local(0)), Instr::Idle];
    shows(rt, "a value is cut to the width of its local", &[1], &cut)?;
    let divided = [
        copy(0, known(0)),
        copy(1, known(0xFFFF_FFFF)),
        Instr::Plain(Plain::DivideSteps(0, 1, Operand::Known(7))),
        write(local(0)),
        write(local(1)),
        copy(0, known(1)),
        copy(1, known(3)),
        Instr::Plain(Plain::DivideSteps(0, 1, Operand::Known(5))),
        write(local(0)),
        write(local(1)),
        Instr::Idle,
    ];
    shows(rt, "2^32 - 1 by 7, and 2^32 + 3 by 5", &[4, 4], &divided)?;
    let multiplied = [
        Instr::Plain(Plain::Product(0, known(0x1FF), known(0x102))),
        write(local(0)),
        compute(Operator::ShiftRight, 2, 0, local(0), known(8)),
        write(local(0)),
        Instr::Idle,
    ];
    shows(rt, "255 times 2", &[2], &multiplied)?;
    let by_none = [
        copy(0, known(0)),
        compute(Operator::Divide, 4, 0, known(7), local(0)),
        Instr::Idle,
    ];
    shows(rt, "7 by 0", &[4], &by_none)?;
    let no_value = [write(known(1)), write(local(0)), Instr::Idle];
    shows(rt, "a local without a value", &[1], &no_value)?;
    let no_local = [copy(1, known(7)), write(local(1)), Instr::Idle];
    shows(rt, "a local that there is not", &[1], &no_local)?;
    let wide = [
        compute(Operator::Plus, 5, 0, known(0), known(0)),
        Instr::Idle,
    ];
    shows(rt, "a sum of five bytes is no code", &[4], &wide)
}

/// Bytes in RAM, which are 1, 2 and 3 at the start.
pub fn memory(rt: &HostRuntime) -> io::Result<()> {
    let two_bytes = [
        load(Memory::Ram, 2, 0, 0x100, known(1)),
        write(local(0)),
        compute(Operator::ShiftRight, 2, 0, local(0), known(8)),
        write(local(0)),
        Instr::Idle,
    ];
    shows(rt, "two bytes, the low one first", &[2], &two_bytes)?;
    let stored = [
        store(2, 0x100, known(0), known(0x1_0605)),
        load(Memory::Ram, 1, 0, 0x100, known(0)),
        write(local(0)),
        load(Memory::Ram, 1, 0, 0xFF, known(2)),
        write(local(0)),
        load(Memory::Ram, 1, 0, 0x102, known(0)),
        write(local(0)),
        Instr::Idle,
    ];
    shows(rt, "two bytes are stored", &[1], &stored)?;
    let load_behind = [load(Memory::Ram, 2, 0, 0x100, known(2)), Instr::Idle];
    shows(rt, "a load of a byte behind RAM", &[2], &load_behind)?;
    let load_before = [load(Memory::Ram, 1, 0, 0xFF, known(0)), Instr::Idle];
    shows(rt, "a load before RAM", &[2], &load_before)?;
    let store_behind = [store(2, 0x100, known(2), known(0)), Instr::Idle];
    shows(rt, "a store of a byte behind RAM", &[], &store_behind)?;
    let no_table = [load(Memory::Flash, 1, 0, 0x8C, known(0)), Instr::Idle];
    shows(rt, "a load from a table that there is not", &[1], &no_table)
}

/// Values that wait.
pub fn waiting(rt: &HostRuntime) -> io::Result<()> {
    let taken = [
        push(1, known(0x1FF)),
        push(2, known(7)),
        pop(2, 0),
        write(local(0)),
        pop(1, 0),
        write(local(0)),
        Instr::Idle,
    ];
    shows(rt, "the newest is taken first", &[2], &taken)?;
    shows(
        rt,
        "a pop of another width",
        &[2],
        &[push(1, known(1)), pop(2, 0), Instr::Idle],
    )?;
    shows(
        rt,
        "a pop where nothing waits",
        &[2],
        &[pop(1, 0), Instr::Idle],
    )
}

/// Places and jumps.
pub fn places(rt: &HostRuntime) -> io::Result<()> {
    let sum = [
        copy(0, known(5)),
        copy(1, known(0)),
        Instr::When(same(1, local(0), known(0)), 6),
        compute(Operator::Plus, 2, 1, local(1), local(0)),
        compute(Operator::Minus, 1, 0, local(0), known(1)),
        Instr::Jump(2),
        write(local(1)),
        Instr::Idle,
    ];
    shows(rt, "the sum of the numbers from 5 down", &[1, 2], &sum)?;
    let unless = [
        Instr::Unless(same(1, known(0x101), known(1)), 3),
        write(known(1)),
        stop(9),
        write(known(2)),
        stop(8),
    ];
    shows(rt, "a test of one byte", &[], &unless)?;
    let unset = [Instr::When(same(1, known(1), local(0)), 0), Instr::Idle];
    shows(rt, "a test of a local without a value", &[1], &unset)?;
    shows(
        rt,
        "a jump out of the code",
        &[],
        &[write(known(1)), Instr::Jump(9)],
    )?;
    shows(rt, "the end of the code", &[], &[write(known(1))])?;
    shows(rt, "a jump to itself", &[], &[Instr::Jump(0)])?;
    shows(rt, "a return from the first procedure", &[], &[leave()])?;
    let nowhere = [call(1, 0, Registers::Empty, None), Instr::Idle];
    shows(rt, "a call of a procedure that there is not", &[], &nowhere)
}

/// Interrupts without a handler, and device reads.
pub fn interrupts(rt: &HostRuntime) -> io::Result<()> {
    let alloc = rt.alloc();
    let reads = [
        Instr::Plain(Plain::ReadDevice(0, 0x36)),
        write(local(0)),
        Instr::Plain(Plain::ReadDevice(0, 0x36)),
        write(local(0)),
        Instr::Idle,
    ];
    let read = alone(alloc, &[1], &reads);
    show(rt, "one read is missing", read, &[7], &[], 40)?;
    let idles = [Instr::Idle, write(known(1)), Instr::Idle, stop(4)];
    let idle = alone(alloc, &[], &idles);
    show(rt, "one interrupt, and none behind it", idle, &[], &[5], 40)?;
    let two = alone(alloc, &[], &idles);
    show(rt, "two interrupts", two, &[], &[5, 6], 40)?;
    let taken = alone(alloc, &[], &idles);
    show(rt, "an interrupt is taken in one step", taken, &[], &[5], 1)
}
