// A program with a dispatch, columns, a table and a handler.
use crate::instrs::{
    call, call_code, compute, known, leave, load, local, passed, push, same, stop, store, write,
};
use crate::shown::{add, program, show};
use std::alloc::Global;
use std::io;
use vg_base::{NoMemory, Row};
use vg_codes::Case;
use vg_lin::{Comparison, Instr, Memory, Operator, Plain, Registers, Test};
use vg_lin_states::{Handler, LinProgram};

// Main reads x, and while it is not 0 it calls a method of the object with this number, with x, and takes 1 from x. Of object 2 the method adds x to
// a column in RAM, and writes the sum. The handler of the interrupt 3 writes an element of an array in flash, by a table, at this index.
fn whole(alloc: Global, object: u32, index: u16) -> Result<LinProgram, NoMemory> {
    let mut all = program(alloc)?;
    all.ram = Row::from_slice(alloc, &[0, 0, 0, 0])?;
    all.tables = Row::from_slice(alloc, &[65, 66, 67, 0x8C, 0, 3, 0])?;
    all.start = 4;
    all.handlers.push(Handler {
        vector: 3,
        procedure: 3,
    })?;
    all.dispatches.push(cases(alloc)?)?;
    let main = [
        Instr::Plain(Plain::ReadDevice(0, 0x36)),
        Instr::When(same(4, local(0), known(0)), 7),
        Instr::Plain(Plain::Find(0, 1, known(object))),
        push(4, local(0)),
        call_code(local(1), 1, Registers::One(passed(2, known(object)))),
        compute(Operator::Minus, 4, 0, local(0), known(1)),
        Instr::Jump(1),
        leave(),
    ];
    add(alloc, &mut all, Some(0), 0, 0, &[4, 2], &main)?;
    add(alloc, &mut all, Some(4), 2, 0, &[4, 2], &[leave()])?;
    let count = [
        load(Memory::Ram, 4, 2, 0x100, known(0)),
        compute(Operator::Plus, 4, 2, local(2), local(0)),
        store(4, 0x100, known(0), local(2)),
        write(local(2)),
        leave(),
    ];
    add(alloc, &mut all, Some(7), 2, 0, &[4, 2, 4], &count)?;
    add_handler(alloc, &mut all, index)?;
    let start = [
        call(0, 0, Registers::Empty, None),
        Instr::Idle,
        Instr::Jump(1),
    ];
    add(alloc, &mut all, None, 0, 0, &[], &start)?;
    Ok(all)
}

// Object 1 has the method that does nothing, object 2 the one that counts.
fn cases(alloc: Global) -> Result<Row<Case>, NoMemory> {
    let mut row = Row::new(alloc);
    for number in [1, 2] {
        row.push(Case {
            first: number,
            count: 1,
            procedure: number,
        })?;
    }
    Ok(row)
}

fn add_handler(alloc: Global, all: &mut LinProgram, index: u16) -> Result<(), NoMemory> {
    let within = Test {
        comparison: Comparison::Below,
        width: 2,
        left: known(u32::from(index)),
        right: local(0),
    };
    let handler = [
        load(Memory::Flash, 2, 0, 0x91, known(0)),
        Instr::Unless(within, 6),
        load(Memory::Flash, 2, 0, 0x8F, known(0)),
        load(Memory::Flash, 1, 1, index, local(0)),
        write(local(1)),
        leave(),
        stop(2),
    ];
    add(alloc, all, Some(9), 0, 0, &[2, 1], &handler)
}

/// Runs of the whole program.
pub fn runs(rt: &HostRuntime) -> io::Result<()> {
    let alloc = rt.alloc();
    let counted = whole(alloc, 2, 1);
    show(
        rt,
        "two calls by dispatch, and two interrupts",
        counted,
        &[2],
        &[3, 5],
        60,
    )?;
    let nothing = whole(alloc, 1, 1);
    show(rt, "a method that does nothing", nothing, &[1], &[], 60)?;
    let no_object = whole(alloc, 3, 1);
    show(rt, "a dispatch without a case", no_object, &[1], &[], 60)?;
    let no_read = whole(alloc, 2, 1);
    show(rt, "no read", no_read, &[], &[], 60)?;
    let passed_by = whole(alloc, 2, 3);
    show(rt, "an index behind the array", passed_by, &[0], &[3], 60)?;
    let taken = whole(alloc, 2, 1);
    show(
        rt,
        "main is done, and the interrupt is taken",
        taken,
        &[0],
        &[3],
        5,
    )?;
    let called = whole(alloc, 2, 1);
    show(rt, "the handler is called", called, &[0], &[3], 6)
}
