use std::alloc::Global;
use vg_base::{NoMemory, Row};
use vg_lin::{Address, Comparison, Computation, Instr, Memory, Operand, Operator, Plain, Test};
use vg_trim::looks_right;
use vg_trim_pairs::Both;
use vg_trim_plan::{Effort, Given, Plan, plan_of};
use vg_trimming::{Bound, Facts, Twin};

fn compared(comparison: Comparison, width: u8, left: Operand, right: Operand) -> Test {
    Test {
        comparison,
        width,
        left,
        right,
    }
}

fn computed(operator: Operator, width: u8, to: u8, left: u8, right: u32) -> Instr {
    Instr::Plain(Plain::Compute(Computation {
        operator,
        width,
        to,
        left: Operand::Local(left),
        right: Operand::Known(right),
    }))
}

fn show(local: u8) -> Instr {
    Instr::Plain(Plain::WriteDevice(0x38, Operand::Local(local)))
}

fn give_nothing() -> Instr {
    Instr::Return(0, Operand::Known(0))
}

// i = 0; while (i < 10) { show i; i = i + 1 }, with so many bytes of i.
fn counted(comparison: Comparison, width: u8) -> [Instr; 6] {
    let test = compared(comparison, width, Operand::Local(0), Operand::Known(10));
    [
        Instr::Plain(Plain::Copy(0, Operand::Known(0))),
        Instr::Unless(test, 5),
        show(0),
        computed(Operator::Plus, width, 0, 0, 1),
        Instr::Jump(1),
        give_nothing(),
    ]
}

// How many bytes an instruction sees, and whether it compares signed numbers; 0 where it sees none.
fn seen(instr: Instr) -> (u8, bool) {
    match instr {
        Instr::When(test, _) => (test.width, is_signed(test.comparison)),
        Instr::Unless(test, _) => (test.width, is_signed(test.comparison)),
        Instr::Plain(Plain::Compute(c)) => (c.width, false),
        _ => (0, false),
    }
}

fn is_signed(comparison: Comparison) -> bool {
    match comparison {
        Comparison::Less => true,
        _ => false,
    }
}

fn planned(alloc: Global, widths: &[u8], code: &[Instr]) -> Result<Plan, NoMemory> {
    let given = Given {
        params: 0,
        widths,
        code,
    };
    plan_of(alloc, given, Effort::Ranging)
}

// Whether a procedure without parameters becomes one with locals of these widths, whose code sees so.
fn becomes(
    alloc: Global,
    older: (&[u8], &[Instr]),
    newer: (&[u8], &[(u8, bool)]),
) -> Result<bool, NoMemory> {
    let (old, code) = older;
    let (new, wanted) = newer;
    let plan = planned(alloc, old, code)?;
    let both = Both {
        old,
        new: plan.widths.as_slice(),
        older: code,
        newer: plan.code.as_slice(),
        facts: plan.facts.as_slice(),
        places: plan.places.as_slice(),
    };
    Ok(
        looks_right(0, 0, both)
            && plan.widths.as_slice() == new
            && sees(plan.code.as_slice(), wanted),
    )
}

fn sees(code: &[Instr], wanted: &[(u8, bool)]) -> bool {
    if code.len() != wanted.len() {
        return false;
    }
    for (instr, one) in code.iter().zip(wanted) {
        if seen(*instr) != *one {
            return false;
        }
    }
    true
}

// A number that counts to 10 takes one byte.
#[test]
fn counters_take_few_bytes(rt: HostRuntime) {
    let alloc = rt.alloc();
    let code = counted(Comparison::Less, 4);
    let wanted = [
        (0, false),
        (1, false),
        (0, false),
        (1, false),
        (0, false),
        (0, false),
    ];
    let becomes = becomes(alloc, (&[4], code.as_slice()), (&[1], wanted.as_slice()));
    assert!(rt; becomes == Ok(true));
}

// What is read is cut to less than 8, and then found to be less than 8.
#[test]
fn checks_of_bounded_values_vanish(rt: HostRuntime) {
    let alloc = rt.alloc();
    let test = compared(Comparison::Below, 4, Operand::Local(1), Operand::Known(8));
    let code = [
        Instr::Plain(Plain::ReadDevice(0, 0x30)),
        computed(Operator::And, 4, 1, 0, 7),
        Instr::When(test, 4),
        Instr::Plain(Plain::Stop(2)),
        show(1),
        give_nothing(),
    ];
    let wanted = [(0, false), (1, false), (0, false), (0, false)];
    let becomes = becomes(alloc, (&[4, 4], code.as_slice()), (&[1], wanted.as_slice()));
    assert!(rt; becomes == Ok(true));
}

// A number that is read from four bytes may be negative, and a test against 10 says nothing of it.
#[test]
fn what_may_be_negative_stays(rt: HostRuntime) {
    let alloc = rt.alloc();
    let test = compared(Comparison::Less, 4, Operand::Local(0), Operand::Known(10));
    let address = Address {
        base: 0x100,
        index: Operand::Known(0),
    };
    let code = [
        Instr::Plain(Plain::Load(Memory::Ram, 4, 0, address)),
        Instr::Unless(test, 3),
        show(0),
        give_nothing(),
    ];
    let wanted = [(0, false), (4, true), (0, false), (0, false)];
    let becomes = becomes(alloc, (&[4], code.as_slice()), (&[4], wanted.as_slice()));
    assert!(rt; becomes == Ok(true));
}

// What is known where a local stands where it stood, and is at most so much, if that is told.
fn at_most(alloc: Global, most: Option<u32>) -> Result<Facts, NoMemory> {
    let mut twins = Row::new(alloc);
    twins.push(Twin {
        local: 0,
        home: Operand::Local(0),
    })?;
    let mut bounds = Row::new(alloc);
    if let Some(most) = most {
        bounds.push(Bound { local: 0, most })?;
    }
    Ok(Facts {
        reached: true,
        twins,
        filled: Row::new(alloc),
        worked: Row::new(alloc),
        bounds,
    })
}

// Whether code that counts to 10 in one byte stands for that in four, where this is told before and behind the test of a turn.
fn counts_so(
    alloc: Global,
    comparison: Comparison,
    before: u32,
    behind: u32,
) -> Result<bool, NoMemory> {
    let older = counted(Comparison::Less, 4);
    let newer = counted(comparison, 1);
    let places: [u16; 6] = [0, 1, 2, 3, 4, 5];
    let mut facts = Row::new(alloc);
    for most in [
        None,
        Some(before),
        Some(behind),
        Some(behind),
        Some(before),
        None,
    ] {
        facts.push(at_most(alloc, most)?)?;
    }
    let both = Both {
        old: &[4],
        new: &[1],
        older: older.as_slice(),
        newer: newer.as_slice(),
        facts: facts.as_slice(),
        places: places.as_slice(),
    };
    Ok(looks_right(0, 0, both))
}

// Before the test of a turn the number is at most 10, and behind it at most 9. Less than that is not true, and signed bytes would not do for more.
#[test]
fn bounds_hold_in_turns(rt: HostRuntime) {
    let alloc = rt.alloc();
    let is_so = counts_so(alloc, Comparison::Below, 10, 9);
    let too_low = counts_so(alloc, Comparison::Below, 9, 9);
    let lower = counts_so(alloc, Comparison::Below, 10, 8);
    let is_signed = counts_so(alloc, Comparison::Less, 10, 9);
    assert!(rt;
        is_so == Ok(true) && too_low == Ok(false) && lower == Ok(false) && is_signed == Ok(false)
    );
}
