// Programs of several procedures.
use crate::instrs::{
    call, call_code, compute, copy, known, leave, load, local, passed, pop, push, stop, store,
    target, write,
};
use crate::shown::{add, program, show};
use std::alloc::Global;
use std::io;
use vg_base::NoMemory;
use vg_lin::{Instr, Memory, Operand, Operator, Plain, Registers, Target};
use vg_lin_states::{Handler, LinProgram};

// A call of `four` from procedure 0, with two arguments that were pushed above another value.
fn four_arguments(alloc: Global) -> Result<LinProgram, NoMemory> {
    let mut all = program(alloc)?;
    let registers = Registers::Two(passed(4, known(0x0102_0304)), passed(1, known(0x109)));
    let caller = [
        push(1, known(99)),
        push(2, known(0x5_1234)),
        push(1, known(7)),
        call(1, 2, registers, target(2, 0)),
        write(local(0)),
        compute(Operator::ShiftRight, 2, 0, local(0), known(8)),
        write(local(0)),
        pop(1, 0),
        write(local(0)),
        Instr::Idle,
    ];
    add(alloc, &mut all, None, 0, 0, &[2], &caller)?;
    let four = [
        write(local(0)),
        write(local(1)),
        write(local(2)),
        write(local(3)),
        Instr::Return(2, local(0)),
    ];
    add(alloc, &mut all, Some(3), 4, 2, &[2, 1, 4, 1, 1], &four)?;
    Ok(all)
}

// A call from procedure 0 of procedure 1, which has one parameter of two bytes and gives back its low byte. Before it local 0 gets 9, and local 1 has no
// value; behind it local 0 is written.
fn one_argument(
    alloc: Global,
    pushed: u8,
    registers: Registers,
    to: Option<Target>,
) -> Result<LinProgram, NoMemory> {
    let mut all = program(alloc)?;
    let caller = [
        copy(0, known(9)),
        push(2, known(0x1_0205)),
        call(1, pushed, registers, to),
        write(local(0)),
        Instr::Idle,
    ];
    add(alloc, &mut all, None, 0, 0, &[4, 4], &caller)?;
    add(
        alloc,
        &mut all,
        None,
        1,
        1,
        &[2],
        &[Instr::Return(1, local(0))],
    )?;
    Ok(all)
}

// A procedure that calls another by its code number, and one that returns while a value waits.
fn by_code(alloc: Global, code: Operand) -> Result<LinProgram, NoMemory> {
    let mut all = program(alloc)?;
    let caller = [
        Instr::Plain(Plain::CodeOf(1, 0)),
        write(local(0)),
        call_code(code, 0, Registers::Empty),
        write(known(2)),
        call(2, 0, Registers::Empty, None),
        Instr::Idle,
    ];
    add(alloc, &mut all, None, 0, 0, &[4], &caller)?;
    add(
        alloc,
        &mut all,
        None,
        0,
        0,
        &[],
        &[write(known(1)), leave()],
    )?;
    add(
        alloc,
        &mut all,
        None,
        0,
        0,
        &[],
        &[push(1, known(1)), leave()],
    )?;
    Ok(all)
}

/// Arguments, results and code numbers.
pub fn arguments(rt: &HostRuntime) -> io::Result<()> {
    let alloc = rt.alloc();
    let four = four_arguments(alloc);
    show(
        rt,
        "two arguments are pushed and two in registers",
        four,
        &[],
        &[],
        40,
    )?;
    let first = Registers::One(passed(2, known(0x1_0203)));
    let dropped = one_argument(alloc, 0, first, None);
    show(rt, "a result that is dropped", dropped, &[], &[], 40)?;
    let taken = one_argument(alloc, 0, first, target(1, 0));
    show(rt, "a result that is cut", taken, &[], &[], 40)?;
    let pushed = one_argument(alloc, 1, Registers::Empty, target(1, 0));
    show(rt, "an argument that was pushed", pushed, &[], &[], 40)?;
    let known_code = by_code(alloc, local(0));
    show(
        rt,
        "a code number, and a return while a value waits",
        known_code,
        &[],
        &[],
        40,
    )?;
    let low_code = by_code(alloc, known(0x9_0047));
    show(
        rt,
        "the low two bytes are the code number",
        low_code,
        &[],
        &[],
        5,
    )?;
    let no_code = by_code(alloc, known(70));
    show(rt, "no code number", no_code, &[], &[], 40)
}

/// Calls that no legal program makes.
pub fn refused(rt: &HostRuntime) -> io::Result<()> {
    let alloc = rt.alloc();
    let narrow = one_argument(alloc, 0, Registers::One(passed(1, known(5))), None);
    show(rt, "an argument of another width", narrow, &[], &[], 40)?;
    let wide = one_argument(alloc, 1, Registers::Empty, target(4, 0));
    show(rt, "a result of another width", wide, &[], &[], 40)?;
    let both = one_argument(alloc, 1, Registers::One(passed(2, known(5))), None);
    show(rt, "too many arguments", both, &[], &[], 40)?;
    let none = one_argument(alloc, 0, Registers::Empty, None);
    show(rt, "too few arguments", none, &[], &[], 40)?;
    let more = one_argument(alloc, 2, Registers::Empty, None);
    show(rt, "fewer values wait", more, &[], &[], 40)?;
    let unset = one_argument(alloc, 0, Registers::One(passed(2, local(1))), None);
    show(rt, "an argument without a value", unset, &[], &[], 40)
}

// Procedure 0 idles, and then writes the first byte in RAM, which procedure 1 changes, the handler of the interrupts 3 and 4. The handler of
// the interrupt 6 needs a value that it does not have.
fn with_handlers(alloc: Global) -> Result<LinProgram, NoMemory> {
    let mut all = program(alloc)?;
    let main = [
        copy(0, known(8)),
        Instr::Idle,
        load(Memory::Ram, 1, 1, 0x100, known(0)),
        write(local(1)),
        write(local(0)),
        Instr::Idle,
        stop(4),
    ];
    add(alloc, &mut all, Some(1), 0, 0, &[1, 1], &main)?;
    let handler = [
        load(Memory::Ram, 1, 0, 0x100, known(0)),
        compute(Operator::Plus, 1, 0, local(0), known(40)),
        store(1, 0x100, known(0), local(0)),
        call(2, 0, Registers::Empty, None),
        leave(),
    ];
    add(alloc, &mut all, Some(9), 0, 0, &[1], &handler)?;
    add(
        alloc,
        &mut all,
        Some(5),
        0,
        0,
        &[],
        &[write(known(77)), leave()],
    )?;
    add(
        alloc,
        &mut all,
        None,
        1,
        0,
        &[1],
        &[write(local(0)), leave()],
    )?;
    for (vector, procedure) in [(3, 1), (4, 1), (3, 2), (6, 3)] {
        all.handlers.push(Handler { vector, procedure })?;
    }
    Ok(all)
}

/// Handlers of interrupts.
pub fn handled(rt: &HostRuntime) -> io::Result<()> {
    let alloc = rt.alloc();
    let once = with_handlers(alloc);
    show(
        rt,
        "a handler, and behind it the next instruction",
        once,
        &[],
        &[3],
        40,
    )?;
    let twice = with_handlers(alloc);
    show(
        rt,
        "two interrupts with one handler, and a stop",
        twice,
        &[],
        &[4, 3],
        40,
    )?;
    let other = with_handlers(alloc);
    show(rt, "an interrupt without a handler", other, &[], &[5], 40)?;
    let unset = with_handlers(alloc);
    show(rt, "a handler's locals have no value", unset, &[], &[6], 40)?;
    let taken = with_handlers(alloc);
    show(
        rt,
        "an interrupt is noted before its handler is called",
        taken,
        &[],
        &[3],
        2,
    )?;
    let called = with_handlers(alloc);
    show(
        rt,
        "its handler is called in the next step",
        called,
        &[],
        &[3],
        3,
    )
}
