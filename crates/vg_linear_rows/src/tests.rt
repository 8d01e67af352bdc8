ghost use Rattle.std.specs.Prelude.{◌<◌, ℕ, length, IfOk};

use std::alloc::Global;
use vg_base::{NoMemory, Refusal, Row};
use vg_firm::{ArrayPlace, Code, Home, Operator, Prefix, Procedure, Step};
use vg_flatten_shapes::{Fault, Layout, Width};
use vg_lin::{
    Call, Callee, Computation, Instr, LinProc, Operand, Operator as LinOperator, Passed, Plain,
    Registers, Target,
};
use vg_linear::{Linear, make_linear};
use vg_packed::FirmProgram;
use vg_placement::{Column, Held};

// A procedure that gets no receiver: one step behind another, and the end where it has a result.
pub fn procedure(
    alloc: Global,
    params: u8,
    widths: &[u8],
    given: u8,
    steps: &[Step],
) -> Result<Procedure, NoMemory> {
    let mut codes = Vec::new(alloc);
    for step in steps {
        codes.push(Code::Do(*step))?;
    }
    if given > 0 {
        codes.push(Code::Return)?;
    }
    Ok(Procedure {
        method: 0,
        params,
        receives: false,
        on_objects: false,
        widths: Row::from_slice(alloc, widths)?,
        result: given,
        calls: Row::new(alloc),
        body: Code::Row(codes),
    })
}

// A table of one array, of three elements.
fn one_array(alloc: Global) -> Result<Row<ArrayPlace>, NoMemory> {
    let mut arrays = Row::new(alloc);
    arrays.push(ArrayPlace {
        address: 0x0102,
        length: 3,
    })?;
    Ok(arrays)
}

// The port B becomes f(50), where f of a byte is its tenth part. The parameter of f has so many bytes.
fn program(alloc: Global, width: u8) -> Result<FirmProgram, NoMemory>
    ensures { IfOk result (λ f. f.main < length f.procedures) }
{
    let call = [Step::Number(50), Step::Call(1, 1), Step::WriteDevice(0x38)];
    let tenth = [
        Step::Local(0),
        Step::Number(10),
        Step::Operate(Operator::Divide),
        Step::Apply(Prefix::Cut(8)),
    ];
    let mut procedures = Row::new(alloc);
    procedures.push(procedure(alloc, 0, &[], 0, call.as_slice())?)?;
    procedures.push(procedure(alloc, 1, &[width], 1, tenth.as_slice())?)?;
    let mut tables = Row::new(alloc);
    tables.push(one_array(alloc)?)?;
    Ok(FirmProgram {
        columns: Row::new(alloc),
        tables,
        procedures,
        dispatches: Row::new(alloc),
        main: 0,
        handlers: Row::new(alloc),
    })
}

// Its linear program, with a field in RAM and a table behind the initial copy of the field.
fn made(alloc: Global, width: u8) -> Result<Linear, Refusal<Fault>> {
    let columns = [
        Column {
            what: Held::Initial,
            home: Home::Flash,
            at: 0x008C,
            width: 1,
            count: 2,
        },
        Column {
            what: Held::Field(0),
            home: Home::Ram,
            at: 0x0100,
            width: 2,
            count: 1,
        },
        Column {
            what: Held::Table(0),
            home: Home::Flash,
            at: 0x008E,
            width: 4,
            count: 1,
        },
    ];
    let firm = program(alloc, width)?;
    make_linear(alloc, columns.as_slice(), &firm)
}

// The two procedures, the start behind them, and four for the routines, of which only division, the procedure 4, is called.
#[test]
fn procedures_and_routines(rt: HostRuntime) {
    let alloc = rt.alloc();
    let holds = match made(alloc, 1) {
        Ok(linear) => are_procedures(&linear) && is_layout(&linear.layout),
        Err(_) => false,
    };
    assert!(rt; holds);
}

// A parameter of no byte is refused.
#[test]
fn no_byte(rt: HostRuntime) {
    let alloc = rt.alloc();
    let refused = made(alloc, 0).err();
    assert!(rt; refused == Some(Refusal::Fault(Fault::NotTaken)));
}

fn are_procedures(linear: &Linear) -> bool {
    match linear.procedures.as_slice() {
        [main, tenth, start, product, division, left, right] => {
            linear.start == 2
                && is_main(main.code())
                && is_tenth(tenth.code())
                && is_start(start.code())
                && is_empty(product)
                && division.params() == 3
                && is_empty(left)
                && is_empty(right)
        }
        _ => false,
    }
}

// It has no local and no result, and returns at once.
fn is_empty(procedure: &LinProc) -> bool {
    match procedure.code() {
        [Instr::Return(width, _)] => {
            *width == 0
                && procedure.result_width() == 0
                && procedure.params() == 0
                && procedure.widths().is_empty()
        }
        _ => false,
    }
}

// f is called with a byte, and its byte is written.
fn is_main(code: &[Instr]) -> bool {
    match code {
        [
            Instr::Call(call),
            Instr::Plain(Plain::WriteDevice(port, value)),
            Instr::Return(width, _),
        ] => {
            is_call_of(*call, 1)
                && is_byte_of(*call, 50)
                && *port == 0x38
                && is_local(*value, 0)
                && *width == 0
        }
        _ => false,
    }
}

// Division is called, and its result is cut to a byte in the local of the parameter, which nobody needs by then. What no run comes to behind the return is left
// out.
fn is_tenth(code: &[Instr]) -> bool {
    match code {
        [
            Instr::Call(call),
            Instr::Plain(Plain::Compute(cut)),
            Instr::Return(width, value),
        ] => {
            is_call_of(*call, 4)
                && is_division(*call)
                && is_cut(*cut)
                && *width == 1
                && is_local(*value, 0)
        }
        _ => false,
    }
}

// Main is called on no receiver, and then the program idles for ever.
fn is_start(code: &[Instr]) -> bool {
    match code {
        [Instr::Call(call), Instr::Idle, Instr::Jump(to)] => is_call_of(*call, 0)
            && is_bare(*call)
            && *to == 1,
        _ => false,
    }
}

fn is_call_of(call: Call, procedure: u16) -> bool {
    match call.callee {
        Callee::Procedure(number) => number == procedure && call.pushed == 0,
        Callee::Code(_) => false,
    }
}

// It has no argument, and no local gets its result.
fn is_bare(call: Call) -> bool {
    match call.registers {
        Registers::Empty => call.to.is_none(),
        _ => false,
    }
}

fn is_byte_of(call: Call, value: u32) -> bool {
    match call.registers {
        Registers::One(passed) => is_passed(passed, 1)
            && is_known(passed.value, value)
            && goes_to(call.to, 1, 0),
        _ => false,
    }
}

// The local 0 by 10, and of both results the quotient.
fn is_division(call: Call) -> bool {
    match call.registers {
        Registers::Three(dividend, divisor, wanted) => {
            is_passed(dividend, 4)
                && is_local(dividend.value, 0)
                && is_passed(divisor, 4)
                && is_known(divisor.value, 10)
                && is_passed(wanted, 1)
                && is_known(wanted.value, 0)
                && goes_to(call.to, 4, 1)
        }
        _ => false,
    }
}

fn is_cut(c: Computation) -> bool {
    match c.operator {
        LinOperator::Plus => c.width == 1
            && c.to == 0
            && is_local(c.left, 1)
            && is_known(c.right, 0),
        _ => false,
    }
}

fn is_passed(passed: Passed, width: u8) -> bool {
    passed.width == width
}

fn goes_to(to: Option<Target>, width: u8, local: u8) -> bool {
    match to {
        Some(target) => target.width == width && target.local == local,
        None => false,
    }
}

fn is_local(value: Operand, local: u8) -> bool {
    match value {
        Operand::Local(number) => number == local,
        Operand::Known(_) => false,
    }
}

fn is_known(value: Operand, number: u32) -> bool {
    match value {
        Operand::Known(known) => known == number,
        Operand::Local(_) => false,
    }
}

// The field and the table are at their places, with one entry and one array, and f gets a byte and gives one back.
fn is_layout(layout: &Layout) -> bool {
    match (
        layout.ram.as_slice(),
        layout.tables.as_slice(),
        layout.lone_arrays.as_slice(),
        layout.passing.as_slice(),
    ) {
        ([place], [table], [Some(array)], [_, tenth]) => {
            place.address == 0x0100
                && place.width == 2
                && place.count == 1
                && *table == 0x008E
                && array.address == 0x0102
                && array.length == 3
                && tenth.widths.as_slice() == [Width::One].as_slice()
                && tenth.result == Some(Width::One)
                && layout.flash.is_empty()
        }
        _ => false,
    }
}
