ghost use Rattle.std.specs.Prelude.{◌≤◌, ℕ, List, length, IfOk};
ghost use Rattle.std.specs.List.{AllByRecursion};
ghost use Rattle.vg_lin.specs.Sound.{IsWidth};

use std::alloc::Global;
use vg_base::{NoMemory, Refusal, Row};
use vg_expand::expand;
use vg_firm::{Code, Operator, Prefix, Procedure, Step};
use vg_flatten::{Fault, Layout, flatten};
use vg_lin::{Callee, Instr, LinProc};

// So many locals of four bytes.
fn wide(alloc: Global, count: u8) -> Result<Row<u8>, NoMemory>
    ensures { IfOk result (λ r. AllByRecursion IsWidth r) }
{
    let mut widths = Row::new(alloc);
    for local in 0..count {
        widths.push(4)?;
    }
    Ok(widths)
}

// A procedure of so many locals, which reads a device so often and adds what it read.
fn high(alloc: Global, locals: u8, count: u8) -> Result<Procedure, NoMemory>
    ensures params { IfOk result (λ p. p.params ≤ length p.widths) }
    ensures widths { IfOk result (λ p. AllByRecursion IsWidth p.widths) }
    ensures given { IfOk result (λ p. p.result ≤ 4) }
{
    let widths = wide(alloc, locals)?;
    let mut steps = Vec::new(alloc);
    for _read in 0..count {
        steps.push(Code::Do(Step::ReadDevice(0x36)))?;
    }
    for _sum in 1..count {
        steps.push(Code::Do(Step::Operate(Operator::Plus)))?;
    }
    steps.push(Code::Do(Step::Forget))?;
    Ok(Procedure {
        method: 0,
        params: 0,
        receives: false,
        on_objects: false,
        widths,
        result: 0,
        calls: Row::new(alloc),
        body: Code::Row(steps),
    })
}

fn flattened(alloc: Global, locals: u8, count: u8) -> Result<LinProc, Refusal<Fault>> {
    let layout = Layout {
        ram: Row::new(alloc),
        flash: Row::new(alloc),
        tables: Row::new(alloc),
        lone_arrays: Row::new(alloc),
        passing: Row::new(alloc),
    };
    flatten(alloc, &layout, &high(alloc, locals, count)?)
}

// How many instructions and locals there are: no more temporaries than values wait, and 192 beside 60 locals at most.
#[test]
fn many_values_wait(rt: HostRuntime) {
    let alloc = rt.alloc();
    let few = flattened(alloc, 60, 1).map(|p| p.code().len() + p.widths().len());
    assert!(rt; few == Ok(123));
    let high = flattened(alloc, 60, 48).map(|p| p.code().len() + p.widths().len());
    assert!(rt; high == Ok(264));
    let highest = flattened(alloc, 60, 192).map(|p| p.code().len() + p.widths().len());
    assert!(rt; highest == Ok(696));
}

// One value more than there are temporaries: the oldest is pushed. 60 zeroes, two instructions for the read that is pushed, one for each of 192 others and
// of 191 sums of these, four for the sum with what was pushed, a copy, a pop, the sum and a push; the pop of the last value, and the end; and 252 locals. With
// 63 values more it is so with 63 reads, and with 63 sums.
#[test]
fn more_values_wait(rt: HostRuntime) {
    let alloc = rt.alloc();
    let higher = flattened(alloc, 60, 193).map(|p| p.code().len() + p.widths().len());
    assert!(rt; higher == Ok(703));
    let highest = flattened(alloc, 60, 255).map(|p| p.code().len() + p.widths().len());
    assert!(rt; highest == Ok(1075));
    assert!(rt; flattened(alloc, 253, 1).err() == Some(Refusal::Fault(Fault::TooHigh)));
}

// A main with two divisions: PORTB = ((-2147483648 / -1) :: raw.32 >> 24) :: raw.8; and z = 5 % z;
fn dividing(alloc: Global) -> Result<Procedure, NoMemory>
    ensures params { IfOk result (λ p. p.params ≤ length p.widths) }
    ensures widths { IfOk result (λ p. AllByRecursion IsWidth p.widths) }
    ensures given { IfOk result (λ p. p.result ≤ 4) }
{
    let mut widths = Row::new(alloc);
    widths.push(4)?;
    let steps = [
        Step::Number(2_147_483_648),
        Step::Apply(Prefix::Negative),
        Step::Number(1),
        Step::Apply(Prefix::Negative),
        Step::Operate(Operator::Divide),
        Step::Number(24),
        Step::Operate(Operator::ShiftRight(32)),
        Step::Apply(Prefix::Cut(8)),
        Step::WriteDevice(0x38),
        Step::Number(0),
        Step::SetLocal(0),
        Step::Number(5),
        Step::Local(0),
        Step::Operate(Operator::Remainder),
        Step::SetLocal(0),
    ];
    let mut codes = Vec::new(alloc);
    for step in steps.as_slice() {
        codes.push(Code::Do(*step))?;
    }
    Ok(Procedure {
        method: 0,
        params: 0,
        receives: false,
        on_objects: false,
        widths,
        result: 0,
        calls: Row::new(alloc),
        body: Code::Row(codes),
    })
}

// How many calls of a procedure there are.
fn calls_of(code: &[Instr], procedure: u16) -> usize {
    let mut count = 0usize;
    for instr in code {
        if is_call(*instr, procedure) {
            count = count.saturating_add(1);
        }
    }
    count
}

fn is_call(instr: Instr, procedure: u16) -> bool {
    match instr {
        Instr::Call(call) => match call.callee {
            Callee::Procedure(number) => number == procedure,
            Callee::Code(_) => false,
        },
        _ => false,
    }
}

// The routines are the procedures 7 to 10.
#[test]
fn divisions_are_calls(rt: HostRuntime) {
    let alloc = rt.alloc();
    let layout = Layout {
        ram: Row::new(alloc),
        flash: Row::new(alloc),
        tables: Row::new(alloc),
        lone_arrays: Row::new(alloc),
        passing: Row::new(alloc),
    };
    let divisions = match dividing(alloc) {
        Ok(procedure) => divisions_in(alloc, &layout, &procedure),
        Err(_) => 0,
    };
    assert!(rt; divisions == 2);
}

// How often division is called, where there is memory: it is the procedure 8.
fn divisions_in(alloc: Global, layout: &Layout, procedure: &Procedure) -> usize
    requires params { procedure.now.params ≤ length procedure.now.widths }
    requires widths { AllByRecursion IsWidth procedure.now.widths }
    requires given { procedure.now.result ≤ 4 }
{
    match flatten(alloc, layout, procedure) {
        Ok(linear) => match expand(alloc, &linear, 7) {
            Ok(expanded) => calls_of(expanded.code(), 8),
            Err(_) => 0,
        },
        Err(_) => 0,
    }
}
