ghost use Rattle.std.specs.Prelude.{◌<◌, ℕ, length, IfOk};

use crate::tests::procedure;
use std::alloc::Global;
use vg_base::{NoMemory, Refusal, Row};
use vg_codes::Case;
use vg_firm::{Code, Procedure, Step};
use vg_flatten_shapes::Fault;
use vg_lin::{Call, Callee, Instr, LinProc, Operand, Passed, Plain, Registers, Target};
use vg_linear::{Linear, make_linear, make_plain, make_shared};
use vg_packed::FirmProgram;

// A method of objects, which does nothing.
fn method(alloc: Global) -> Result<Procedure, NoMemory> {
    Ok(Procedure {
        method: 0,
        params: 0,
        receives: true,
        on_objects: true,
        widths: Row::new(alloc),
        result: 0,
        calls: Row::new(alloc),
        body: Code::Row(Vec::new(alloc)),
    })
}

// The objects 1 and 2 have the procedure 3, and the object 3 has the procedure 4.
fn cases(alloc: Global) -> Result<Row<Case>, NoMemory> {
    let mut cases = Row::new(alloc);
    cases.push(Case {
        first: 1,
        count: 1,
        procedure: 3,
    })?;
    cases.push(Case {
        first: 2,
        count: 1,
        procedure: 3,
    })?;
    cases.push(Case {
        first: 3,
        count: 1,
        procedure: 4,
    })?;
    Ok(cases)
}

// The procedures 1 and 2 call the method of the object that they get.
fn program(alloc: Global) -> Result<FirmProgram, NoMemory>
    ensures { IfOk result (λ f. f.main < length f.procedures) }
{
    let asks = [Step::Local(0), Step::CallFor(0, 0), Step::Forget];
    let mut procedures = Row::new(alloc);
    procedures.push(procedure(alloc, 0, &[], 0, &[])?)?;
    procedures.push(procedure(alloc, 1, &[2], 0, asks.as_slice())?)?;
    procedures.push(procedure(alloc, 1, &[2], 0, asks.as_slice())?)?;
    procedures.push(method(alloc)?)?;
    procedures.push(method(alloc)?)?;
    let mut dispatches = Row::new(alloc);
    dispatches.push(cases(alloc)?)?;
    Ok(FirmProgram {
        columns: Row::new(alloc),
        tables: Row::new(alloc),
        procedures,
        dispatches,
        main: 0,
        handlers: Row::new(alloc),
    })
}

fn trimmed(alloc: Global) -> Result<Linear, Refusal<Fault>> {
    let firm = program(alloc)?;
    make_linear(alloc, &[], &firm)
}

fn shared(alloc: Global) -> Result<Linear, Refusal<Fault>> {
    let firm = program(alloc)?;
    make_shared(alloc, &[], &firm)
}

fn plain(alloc: Global) -> Result<Linear, Refusal<Fault>> {
    let firm = program(alloc)?;
    make_plain(alloc, &[], &firm)
}

// Each of the two looks up by itself, and nothing stands behind the routines.
#[test]
fn in_place(rt: HostRuntime) {
    let alloc = rt.alloc();
    let holds = match trimmed(alloc) {
        Ok(linear) => {
            has_no_finder(linear.procedures.as_slice()) && are_joined(linear.dispatches.as_slice())
        }
        Err(_) => false,
    };
    assert!(rt; holds);
}

// Both call the one finder, which stands behind the routines.
#[test]
fn by_finder(rt: HostRuntime) {
    let alloc = rt.alloc();
    let holds = match plain(alloc) {
        Ok(linear) => {
            has_finder(linear.procedures.as_slice()) && are_joined(linear.dispatches.as_slice())
        }
        Err(_) => false,
    };
    assert!(rt; holds);
}

// The same with trimmed procedures.
#[test]
fn by_finder_where_trimmed(rt: HostRuntime) {
    let alloc = rt.alloc();
    let holds = match shared(alloc) {
        Ok(linear) => {
            has_finder(linear.procedures.as_slice()) && are_joined(linear.dispatches.as_slice())
        }
        Err(_) => false,
    };
    assert!(rt; holds);
}

// The neighbours 1 and 2 are one case.
fn are_joined(dispatches: &[Row<Case>]) -> bool {
    match dispatches {
        [cases] => match cases.as_slice() {
            [one, three] => is_case(*one, 1, 2, 3) && is_case(*three, 3, 1, 4),
            _ => false,
        },
        _ => false,
    }
}

fn is_case(case: Case, first: u16, count: u16, procedure: u16) -> bool {
    case.first == first && case.count == count && case.procedure == procedure
}

// Five packed procedures, the start and the four routines.
fn has_no_finder(procedures: &[LinProc]) -> bool {
    match procedures {
        [_, one, two, _, _, _, _, _, _, _] => looks_up(one.code()) && looks_up(two.code()),
        _ => false,
    }
}

// The same, and the finder has the number 10.
fn has_finder(procedures: &[LinProc]) -> bool {
    match procedures {
        [_, one, two, _, _, _, _, _, _, _, finder] => calls_finder(one.code())
            && calls_finder(two.code())
            && is_finder(finder),
        _ => false,
    }
}

// Null ends the run; else the code number that the dispatch has for the object is looked up, and called on the object.
fn looks_up(code: &[Instr]) -> bool {
    match code {
        [
            Instr::Unless(_, 2),
            Instr::Plain(Plain::Stop(1)),
            Instr::Plain(Plain::Find(0, to, number)),
            Instr::Call(call),
            Instr::Return(0, _),
        ] => is_local(*number, 0) && is_method_call(*call, *to),
        _ => false,
    }
}

// The same, but the code number is what the finder gives back.
fn calls_finder(code: &[Instr]) -> bool {
    match code {
        [
            Instr::Unless(_, 2),
            Instr::Plain(Plain::Stop(1)),
            Instr::Call(finder),
            Instr::Call(call),
            Instr::Return(0, _),
        ] => match finder.to {
            Some(target) => is_finder_call(*finder, target) && is_method_call(*call, target.local),
            None => false,
        },
        _ => false,
    }
}

fn is_finder_call(call: Call, target: Target) -> bool {
    match call.callee {
        Callee::Procedure(number) => number == 10 && target.width == 2 && is_on_object(call),
        Callee::Code(_) => false,
    }
}

// What is called is the code number in this local.
fn is_method_call(call: Call, local: u8) -> bool {
    match call.callee {
        Callee::Procedure(_) => false,
        Callee::Code(number) => is_local(number, local) && is_on_object(call),
    }
}

// The one argument is the object's number.
fn is_on_object(call: Call) -> bool {
    match call.registers {
        Registers::One(passed) => call.pushed == 0 && is_object(passed),
        _ => false,
    }
}

fn is_object(passed: Passed) -> bool {
    passed.width == 2 && is_local(passed.value, 0)
}

// It gets the number of an object, and gives back the code number that the dispatch has for it.
fn is_finder(finder: &LinProc) -> bool {
    match finder.code() {
        [
            Instr::Plain(Plain::Find(0, 1, number)),
            Instr::Return(2, found),
        ] => {
            is_local(*number, 0)
                && is_local(*found, 1)
                && finder.params() == 1
                && finder.result_width() == 2
                && finder.widths() == [2, 2].as_slice()
        }
        _ => false,
    }
}

fn is_local(value: Operand, local: u8) -> bool {
    match value {
        Operand::Local(number) => number == local,
        Operand::Known(_) => false,
    }
}
