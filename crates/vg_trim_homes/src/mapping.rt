// Instructions with their operands where these stand.
use crate::homes::Homes;
use vg_lin::{
    Address, Call, Callee, Comparison, Computation, Instr, Operand, Operator, Passed, Plain,
    Registers, Target, Test,
};
use vg_trim_flow::{bytes_of, bytes_to, computed_bytes, larger, narrowed, smaller};
use vg_trim_ranges::{Spot, computed_most, tells_less};

/// A plain instruction at a spot, with its operands where they stand and its result in this local.
pub fn mapped(homes: &Homes, spot: Spot<'_>, plain: Plain, to: u8) -> Plain {
    match plain {
        Plain::Copy(_, value) => Plain::Copy(to, homes.home(value)),
        Plain::Compute(c) => Plain::Compute(mapped_computation(homes, spot, c, to)),
        Plain::Load(memory, width, _, address) => {
            Plain::Load(memory, width, to, address_at(homes, address))
        }
        Plain::Store(width, address, value) => {
            Plain::Store(width, address_at(homes, address), homes.home(value))
        }
        Plain::ReadDevice(_, address) => Plain::ReadDevice(to, address),
        Plain::WriteDevice(address, value) => Plain::WriteDevice(address, homes.home(value)),
        Plain::Push(width, value) => Plain::Push(width, homes.home(value)),
        Plain::Pop(width, _) => Plain::Pop(width, to),
        Plain::Find(dispatch, _, value) => Plain::Find(dispatch, to, homes.home(value)),
        Plain::CodeOf(procedure, _) => Plain::CodeOf(procedure, to),
        other => other,
    }
}

// A computation of as few bytes as its operands and its result need.
fn mapped_computation(homes: &Homes, spot: Spot<'_>, c: Computation, to: u8) -> Computation {
    let left = homes.home(c.left);
    let right = homes.home(c.right);
    let first = bytes_of(homes.widths.as_slice(), left);
    let second = bytes_of(homes.widths.as_slice(), right);
    let most = made_bytes(c, spot.most_of(c.left), spot.most_of(c.right));
    Computation {
        operator: c.operator,
        width: smaller(
            computed_bytes(c.operator, c.width, first, second),
            narrowed(c.width, most),
        ),
        to,
        left,
        right,
    }
}

// How many bytes a computation needs whose operands are at most these. What becomes a call of a routine is not narrowed: its result would be cut.
fn made_bytes(c: Computation, left: u32, right: u32) -> u8 {
    match c.operator {
        Operator::Plus => bytes_to(computed_most(c, left, right)),
        Operator::And => bytes_to(computed_most(c, left, right)),
        Operator::Or => bytes_to(computed_most(c, left, right)),
        Operator::Xor => bytes_to(computed_most(c, left, right)),
        Operator::Times => {
            if is_power(c.left) || is_power(c.right) {
                bytes_to(computed_most(c, left, right))
            } else {
                c.width
            }
        }
        Operator::ShiftRight => match c.right {
            Operand::Known(_) => bytes_to(left),
            Operand::Local(_) => c.width,
        },
        _ => c.width,
    }
}

// Whether an operand is a power of 2.
fn is_power(value: Operand) -> bool {
    match value {
        Operand::Known(number) => 0 < number && number & (number - 1) == 0,
        Operand::Local(_) => false,
    }
}

fn address_at(homes: &Homes, address: Address) -> Address {
    Address {
        base: address.base,
        index: homes.home(address.index),
    }
}

/// A test at a spot with its operands where they stand, of as few bytes as they have.
pub fn mapped_test(homes: &Homes, spot: Spot<'_>, test: Test) -> Test {
    let by_homes = homed_test(homes, test);
    let by_mosts = bounded_test(spot, test);
    let chosen = if by_mosts.width < by_homes.width {
        by_mosts
    } else {
        by_homes
    };
    Test {
        comparison: chosen.comparison,
        width: chosen.width,
        left: homes.home(test.left),
        right: homes.home(test.right),
    }
}

// A test of as few bytes as the locals have in which its operands stand.
fn homed_test(homes: &Homes, test: Test) -> Test {
    let most = larger(
        bytes_of(homes.widths.as_slice(), homes.home(test.left)),
        bytes_of(homes.widths.as_slice(), homes.home(test.right)),
    );
    if is_signed(test.comparison) {
        test
    } else {
        with_width(test, test.comparison, most)
    }
}

// A test of as few bytes as the values have. Values that are not negative are less where they are below.
fn bounded_test(spot: Spot<'_>, test: Test) -> Test {
    let left = spot.most_of(test.left);
    let right = spot.most_of(test.right);
    let most = larger(bytes_to(left), bytes_to(right));
    if !is_signed(test.comparison) {
        with_width(test, test.comparison, most)
    } else if tells_less(test, left, right) {
        with_width(test, Comparison::Below, most)
    } else {
        test
    }
}

fn with_width(test: Test, comparison: Comparison, bytes: u8) -> Test {
    Test {
        comparison,
        width: narrowed(test.width, bytes),
        left: test.left,
        right: test.right,
    }
}

fn is_signed(comparison: Comparison) -> bool {
    match comparison {
        Comparison::Less => true,
        _ => false,
    }
}

/// A call with its operands where they stand, and its result in this local.
pub fn mapped_call(homes: &Homes, call: Call, to: Option<Target>) -> Call {
    Call {
        callee: match call.callee {
            Callee::Procedure(procedure) => Callee::Procedure(procedure),
            Callee::Code(value) => Callee::Code(homes.home(value)),
        },
        pushed: call.pushed,
        registers: mapped_registers(homes, call.registers),
        to,
    }
}

fn mapped_registers(homes: &Homes, registers: Registers) -> Registers {
    match registers {
        Registers::Empty => Registers::Empty,
        Registers::One(a) => Registers::One(passed(homes, a)),
        Registers::Two(a, b) => Registers::Two(passed(homes, a), passed(homes, b)),
        Registers::Three(a, b, c) => {
            Registers::Three(passed(homes, a), passed(homes, b), passed(homes, c))
        }
        Registers::Four(a, b, c, d) => Registers::Four(
            passed(homes, a),
            passed(homes, b),
            passed(homes, c),
            passed(homes, d),
        ),
    }
}

fn passed(homes: &Homes, value: Passed) -> Passed {
    Passed {
        width: value.width,
        value: homes.home(value.value),
    }
}

/// What stands at a place where no run comes: it does the same with what waits.
pub fn stand_in(instr: Instr, spare: u8) -> Instr {
    match instr {
        Instr::Plain(Plain::Push(width, _)) => Instr::Plain(Plain::Push(width, Operand::Known(0))),
        Instr::Plain(Plain::Pop(width, _)) => Instr::Plain(Plain::Pop(width, spare)),
        Instr::Call(call) => Instr::Call(Call {
            callee: match call.callee {
                Callee::Procedure(procedure) => Callee::Procedure(procedure),
                Callee::Code(_) => Callee::Code(Operand::Known(0)),
            },
            pushed: call.pushed,
            registers: Registers::Empty,
            to: None,
        }),
        Instr::Jump(to) => Instr::Jump(to),
        _ => Instr::Plain(Plain::Stop(0)),
    }
}

/// A local gets a value that nobody needs.
pub fn filler(spare: u8) -> Instr {
    Instr::Plain(Plain::Copy(spare, Operand::Known(0)))
}
