use std::alloc::Global;
use vg_base::NoMemory;
use vg_lin::{Comparison, Instr, Operand, Plain, Test};
use vg_trim::looks_right;
use vg_trim_pairs::Both;
use vg_trim_plan::{Effort, Given, plan_of};

// Whether a local of two bytes, or the truth value in the fourth local, is 0.
fn is_zero(local: u8) -> Test {
    Test {
        comparison: Comparison::Same,
        width: 2,
        left: Operand::Local(local),
        right: Operand::Known(0),
    }
}

// Whether one local is less than another.
fn is_less(left: u8, right: u8) -> Test {
    Test {
        comparison: Comparison::Less,
        width: 2,
        left: Operand::Local(left),
        right: Operand::Local(right),
    }
}

// The truth value becomes this number.
fn truth(value: u32) -> Instr {
    Instr::Plain(Plain::Copy(3, Operand::Known(value)))
}

// A device gets this number.
fn show(value: u32) -> Instr {
    Instr::Plain(Plain::WriteDevice(0x38, Operand::Known(value)))
}

fn give_nothing() -> Instr {
    Instr::Return(0, Operand::Known(0))
}

// What an instruction is, by a letter, and its place, number or local.
fn mark(instr: Instr) -> (u8, u32) {
    match instr {
        Instr::When(_, to) => (b'w', u32::from(to)),
        Instr::Unless(_, to) => (b'u', u32::from(to)),
        Instr::Jump(to) => (b'j', u32::from(to)),
        Instr::Return(_, _) => (b'r', 0),
        Instr::Plain(Plain::Copy(_, Operand::Known(number))) => (b'c', number),
        Instr::Plain(Plain::WriteDevice(_, Operand::Known(number))) => (b'd', number),
        Instr::Plain(Plain::WriteDevice(_, Operand::Local(local))) => (b'l', u32::from(local)),
        Instr::Plain(Plain::Stop(code)) => (b's', u32::from(code)),
        _ => (b'?', 0),
    }
}

// Whether a procedure with three parameters of two bytes, a truth value and this code becomes code with these marks.
fn becomes(alloc: Global, code: &[Instr], marks: &[(u8, u32)]) -> Result<bool, NoMemory> {
    let widths: [u8; 4] = [2, 2, 2, 1];
    let given = Given {
        params: 3,
        widths: widths.as_slice(),
        code,
    };
    let plan = plan_of(alloc, given, Effort::Leading)?;
    let both = Both {
        old: widths.as_slice(),
        new: plan.widths.as_slice(),
        older: code,
        newer: plan.code.as_slice(),
        facts: plan.facts.as_slice(),
        places: plan.places.as_slice(),
    };
    Ok(looks_right(3, 0, both) && are_marked(plan.code.as_slice(), marks))
}

fn are_marked(code: &[Instr], marks: &[(u8, u32)]) -> bool {
    if code.len() != marks.len() {
        return false;
    }
    for (instr, wanted) in code.iter().zip(marks) {
        let (letter, number) = mark(*instr);
        if letter != wanted.0 || number != wanted.1 {
            return false;
        }
    }
    true
}

// if (a < b && c != 0) show 1; show 2
#[test]
fn conjunctions_become_branches(rt: HostRuntime) {
    let alloc = rt.alloc();
    let code = [
        Instr::Unless(is_less(0, 1), 6),
        Instr::When(is_zero(2), 4),
        truth(1),
        Instr::Jump(5),
        truth(0),
        Instr::Jump(7),
        truth(0),
        Instr::When(is_zero(3), 9),
        show(1),
        show(2),
        give_nothing(),
    ];
    let marks = [(b'u', 3), (b'w', 3), (b'd', 1), (b'd', 2), (b'r', 0)];
    let becomes = becomes(alloc, code.as_slice(), marks.as_slice());
    assert!(rt; becomes == Ok(true));
}

// if (a < b || c != 0) show 1; show 2. The first branch is turned.
#[test]
fn disjunctions_become_branches(rt: HostRuntime) {
    let alloc = rt.alloc();
    let code = [
        Instr::Unless(is_less(0, 1), 3),
        truth(1),
        Instr::Jump(7),
        Instr::When(is_zero(2), 6),
        truth(1),
        Instr::Jump(7),
        truth(0),
        Instr::When(is_zero(3), 9),
        show(1),
        show(2),
        give_nothing(),
    ];
    let marks = [(b'w', 2), (b'w', 3), (b'd', 1), (b'd', 2), (b'r', 0)];
    let becomes = becomes(alloc, code.as_slice(), marks.as_slice());
    assert!(rt; becomes == Ok(true));
}

// while (a < b && c != 0) show 1; show 2
#[test]
fn loops_have_two_tests(rt: HostRuntime) {
    let alloc = rt.alloc();
    let code = [
        Instr::Unless(is_less(0, 1), 6),
        Instr::When(is_zero(2), 4),
        truth(1),
        Instr::Jump(5),
        truth(0),
        Instr::Jump(7),
        truth(0),
        Instr::When(is_zero(3), 10),
        show(1),
        Instr::Jump(0),
        show(2),
        give_nothing(),
    ];
    let marks = [
        (b'u', 4),
        (b'w', 4),
        (b'd', 1),
        (b'j', 0),
        (b'd', 2),
        (b'r', 0),
    ];
    let becomes = becomes(alloc, code.as_slice(), marks.as_slice());
    assert!(rt; becomes == Ok(true));
}

// if (a < b && c != 0 && a < c) show 1; show 2
#[test]
fn longer_conjunctions_become_branches(rt: HostRuntime) {
    let alloc = rt.alloc();
    let code = [
        Instr::Unless(is_less(0, 1), 6),
        Instr::When(is_zero(2), 4),
        truth(1),
        Instr::Jump(5),
        truth(0),
        Instr::Jump(7),
        truth(0),
        Instr::When(is_zero(3), 13),
        Instr::Unless(is_less(0, 2), 11),
        truth(1),
        Instr::Jump(12),
        truth(0),
        Instr::Jump(14),
        truth(0),
        Instr::When(is_zero(3), 16),
        show(1),
        show(2),
        give_nothing(),
    ];
    let marks = [
        (b'u', 4),
        (b'w', 4),
        (b'u', 4),
        (b'd', 1),
        (b'd', 2),
        (b'r', 0),
    ];
    let becomes = becomes(alloc, code.as_slice(), marks.as_slice());
    assert!(rt; becomes == Ok(true));
}

// x = a < b && c != 0; if (x) show 1; show x. The value is made.
#[test]
fn stored_values_are_made(rt: HostRuntime) {
    let alloc = rt.alloc();
    let code = [
        Instr::Unless(is_less(0, 1), 6),
        Instr::When(is_zero(2), 4),
        truth(1),
        Instr::Jump(5),
        truth(0),
        Instr::Jump(7),
        truth(0),
        Instr::When(is_zero(3), 9),
        show(1),
        Instr::Plain(Plain::WriteDevice(0x38, Operand::Local(3))),
        give_nothing(),
    ];
    let marks = [
        (b'u', 6),
        (b'w', 4),
        (b'c', 1),
        (b'j', 7),
        (b'c', 0),
        (b'j', 7),
        (b'c', 0),
        (b'w', 9),
        (b'd', 1),
        (b'l', 3),
        (b'r', 0),
    ];
    let becomes = becomes(alloc, code.as_slice(), marks.as_slice());
    assert!(rt; becomes == Ok(true));
}

// A local is checked and shown, and checked and shown again; what no run comes to, and a jump to the next place, are left out.
#[test]
fn second_checks_vanish(rt: HostRuntime) {
    let alloc = rt.alloc();
    let stop = Instr::Plain(Plain::Stop(3));
    let write = Instr::Plain(Plain::WriteDevice(0x38, Operand::Local(0)));
    let code = [
        Instr::Unless(is_zero(0), 2),
        stop,
        write,
        Instr::Unless(is_zero(0), 5),
        stop,
        write,
        Instr::Jump(8),
        give_nothing(),
        give_nothing(),
    ];
    let marks = [(b'u', 2), (b's', 3), (b'l', 0), (b'l', 0), (b'r', 0)];
    let becomes = becomes(alloc, code.as_slice(), marks.as_slice());
    assert!(rt; becomes == Ok(true));
}

// Three locals are checked and shown, for which code stops in the same way: two branches lead to the last stop, and the first stops are left out.
#[test]
fn checks_lead_to_one_stop(rt: HostRuntime) {
    let alloc = rt.alloc();
    let stop = Instr::Plain(Plain::Stop(3));
    let code = [
        Instr::Unless(is_zero(0), 2),
        stop,
        Instr::Plain(Plain::WriteDevice(0x38, Operand::Local(0))),
        Instr::Unless(is_zero(1), 5),
        stop,
        Instr::Plain(Plain::WriteDevice(0x38, Operand::Local(1))),
        Instr::Unless(is_zero(2), 8),
        stop,
        Instr::Plain(Plain::WriteDevice(0x38, Operand::Local(2))),
        give_nothing(),
    ];
    let marks = [
        (b'w', 5),
        (b'l', 0),
        (b'w', 5),
        (b'l', 1),
        (b'u', 6),
        (b's', 3),
        (b'l', 2),
        (b'r', 0),
    ];
    let becomes = becomes(alloc, code.as_slice(), marks.as_slice());
    assert!(rt; becomes == Ok(true));
}
