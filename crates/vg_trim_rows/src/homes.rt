// Where guesses let values stand.
use std::alloc::Global;
use vg_base::NoMemory;
use vg_lin::{Address, Comparison, Computation, Instr, Memory, Operand, Operator, Plain, Test};
use vg_trim::looks_right;
use vg_trim_pairs::Both;
use vg_trim_plan::{Effort, Given, plan_of};

fn copy(to: u8, from: u8) -> Instr {
    Instr::Plain(Plain::Copy(to, Operand::Local(from)))
}

// A device gets the value of a local.
fn show(local: u8) -> Instr {
    Instr::Plain(Plain::WriteDevice(0x38, Operand::Local(local)))
}

// So many bytes of RAM, from an address and an index on, go to a local.
fn load(width: u8, to: u8, index: Operand) -> Instr {
    Instr::Plain(Plain::Load(Memory::Ram, width, to, Address { base: 0x100, index }))
}

// A local becomes one more.
fn count(local: u8) -> Instr {
    Instr::Plain(Plain::Compute(Computation {
        operator: Operator::Plus,
        width: 2,
        to: local,
        left: Operand::Local(local),
        right: Operand::Known(1),
    }))
}

// Whether the bytes of a local are less than a number.
fn is_less(width: u8, local: u8, number: u32) -> Test {
    Test {
        comparison: Comparison::Less,
        width,
        left: Operand::Local(local),
        right: Operand::Known(number),
    }
}

fn give_nothing() -> Instr {
    Instr::Return(0, Operand::Known(0))
}

// Whether a procedure with one parameter, locals of these widths and this code becomes one with locals of those widths and so many instructions.
fn becomes(
    alloc: Global,
    widths: &[u8],
    code: &[Instr],
    new: &[u8],
    count: usize,
) -> Result<bool, NoMemory> {
    let given = Given {
        params: 1,
        widths,
        code,
    };
    let plan = plan_of(alloc, given, Effort::Ranging)?;
    let both = Both {
        old: widths,
        new: plan.widths.as_slice(),
        older: code,
        newer: plan.code.as_slice(),
        facts: plan.facts.as_slice(),
        places: plan.places.as_slice(),
    };
    let stands = looks_right(1, 0, both);
    Ok(stands && are_same(plan.widths.as_slice(), new) && plan.code.len() == count)
}

fn are_same(first: &[u8], second: &[u8]) -> bool {
    if first.len() != second.len() {
        return false;
    }
    let mut index = 0usize;
    for width in first {
        if second.get(index).copied() != Some(*width) {
            return false;
        }
        index += 1;
    }
    true
}

// for (i = a; i < 9; i = i + 1) show i. The counter stands where the parameter stood, which nobody needs any more, and is not copied there: of six instructions
// five are left, and of two locals one.
#[test]
fn counters_stand_where_parameters_stood(rt: HostRuntime) {
    let alloc = rt.alloc();
    let code = [
        copy(1, 0),
        Instr::Unless(is_less(2, 1, 9), 5),
        show(1),
        count(1),
        Instr::Jump(1),
        give_nothing(),
    ];
    let becomes = becomes(alloc, &[2, 2], code.as_slice(), &[2], 5);
    assert!(rt; becomes == Ok(true));
}

// The same where the parameter is shown in each turn: it keeps its local, and the counter has its own.
#[test]
fn needed_parameters_stay(rt: HostRuntime) {
    let alloc = rt.alloc();
    let code = [
        copy(1, 0),
        Instr::Unless(is_less(2, 1, 9), 6),
        show(1),
        show(0),
        count(1),
        Instr::Jump(1),
        give_nothing(),
    ];
    let becomes = becomes(alloc, &[2, 2], code.as_slice(), &[2, 2], 7);
    assert!(rt; becomes == Ok(true));
}

// show a; if (x < 3) show a number of the local. The value that the branch reads, and nobody behind it, stands where the parameter stood.
#[test]
fn values_of_branches_stand_where_parameters_stood(rt: HostRuntime) {
    let alloc = rt.alloc();
    let code = [
        show(0),
        load(4, 1, Operand::Known(0)),
        Instr::When(is_less(4, 1, 3), 4),
        Instr::Plain(Plain::WriteDevice(0x38, Operand::Known(1))),
        give_nothing(),
    ];
    let becomes = becomes(alloc, &[4, 4], code.as_slice(), &[4], 5);
    assert!(rt; becomes == Ok(true));
}

// Behind a parameter of one byte comes a local that nobody uses, so that the next one of two bytes begins at a register of an even number, from where one word
// moves it to the pointer.
#[test]
fn pairs_are_not_split(rt: HostRuntime) {
    let alloc = rt.alloc();
    let code = [
        load(2, 1, Operand::Known(0)),
        load(2, 1, Operand::Local(1)),
        show(0),
        show(1),
        give_nothing(),
    ];
    let becomes = becomes(alloc, &[1, 2], code.as_slice(), &[1, 1, 2], 5);
    assert!(rt; becomes == Ok(true));
}

// The same with a parameter of two bytes: no local is added.
#[test]
fn even_parameters_need_no_more(rt: HostRuntime) {
    let alloc = rt.alloc();
    let code = [
        load(2, 1, Operand::Known(0)),
        load(2, 1, Operand::Local(1)),
        show(0),
        show(1),
        give_nothing(),
    ];
    let becomes = becomes(alloc, &[2, 2], code.as_slice(), &[2, 2], 5);
    assert!(rt; becomes == Ok(true));
}
