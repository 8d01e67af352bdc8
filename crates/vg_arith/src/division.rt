// The routine of division.
ghost use Rattle.std.specs.Prelude.{◌≡◌, ◌++◌, [], ◌∷◌, IfOk, OnOk};
ghost use Rattle.vg_lin.specs.declared.instr.Operator.TheVariants.{Divide, Remainder};
ghost use Rattle.vg_lin.specs.Sound.{IsSound};
ghost use Rattle.vg_arith.specs.Routines.{IsRoutineOf, IsShort};
ghost use Rattle.vg_arith.specs.Division.{divide, of_steps, of_dividend, of_divisor, of_result, is_negative, is_zero, negated};

use std::alloc::Global;
use vg_base::{NoMemory, Row};
use vg_lin::{Comparison, Computation, Instr, LinProc, Operand, Operator, Plain, Test};

/// The routine of division, for quotient and remainder. A third argument chooses the result: 0 the quotient, 1 the remainder.
pub fn division_routine(alloc: Global) -> Result<LinProc, NoMemory>
    ensures { IfOk result (λ p. p ≡ divide) }
{
    let code = division_code(alloc)?;
    let widths = division_widths(alloc)?;
    Ok(LinProc::new(None, 3, 4, widths, code))
}

fn division_widths(alloc: Global) -> Result<Row<u8>, NoMemory>
    ensures { IfOk result (λ widths. widths ≡ divide.widths) }
{
    let mut widths = Row::new(alloc);
    widths.push(4)?;
    widths.push(4)?;
    widths.push(1)?;
    widths.push(4)?;
    widths.push(4)?;
    widths.push(1)?;
    Ok(widths)
}

fn division_code(alloc: Global) -> Result<Row<Instr>, NoMemory>
    ensures { IfOk result (λ code. code ≡ divide.code) }
{
    let mut code = Row::new(alloc);
    push_dividend(&mut code)?;
    push_divisor(&mut code)?;
    code.push(steps())?;
    push_result(&mut code)?;
    Ok(code)
}

fn push_dividend(code: &mut Row<Instr>) -> Result<(), NoMemory>
    ensures { OnOk result (code.new ≡ code.old ++ of_dividend) }
{
    code.push(Instr::Plain(Plain::Copy(4, Operand::Local(0))))?;
    code.push(Instr::Plain(Plain::Copy(3, Operand::Known(0))))?;
    code.push(Instr::Plain(Plain::Compute(Computation {
        operator: Operator::ShiftRight,
        width: 4,
        to: 5,
        left: Operand::Local(4),
        right: Operand::Known(24),
    })))?;
    code.push(Instr::Unless(negative(1, 5), 5))?;
    code.push(negate(Operand::Local(3), 4))?;
    Ok(())
}

fn push_divisor(code: &mut Row<Instr>) -> Result<(), NoMemory>
    ensures { OnOk result (code.new ≡ code.old ++ of_divisor) }
{
    code.push(Instr::Unless(negative(4, 1), 9))?;
    code.push(negate(Operand::Local(3), 1))?;
    code.push(Instr::Unless(zero(2), 9))?;
    code.push(Instr::Plain(Plain::Compute(Computation {
        operator: Operator::Plus,
        width: 1,
        to: 5,
        left: Operand::Local(5),
        right: Operand::Known(0x80),
    })))?;
    Ok(())
}

fn push_result(code: &mut Row<Instr>) -> Result<(), NoMemory>
    ensures { OnOk result (code.new ≡ code.old ++ of_result) }
{
    code.push(Instr::When(zero(2), 12))?;
    code.push(Instr::Plain(Plain::Copy(4, Operand::Local(3))))?;
    code.push(Instr::Unless(negative(1, 5), 14))?;
    code.push(negate(Operand::Known(0), 4))?;
    code.push(Instr::Return(4, Operand::Local(4)))?;
    Ok(())
}

// All steps of the division of the magnitudes.
fn steps() -> Instr
    ensures { result ≡ of_steps }
{
    Instr::Plain(Plain::DivideSteps(3, 4, Operand::Local(1)))
}

// Whether so many low bytes of a local are a negative number.
fn negative(width: u8, local: u8) -> Test
    ensures { result ≡ is_negative width local }
{
    Test {
        comparison: Comparison::Less,
        width,
        left: Operand::Local(local),
        right: Operand::Known(0),
    }
}

// Whether the byte in a local is 0.
fn zero(local: u8) -> Test
    ensures { result ≡ is_zero local }
{
    Test {
        comparison: Comparison::Same,
        width: 1,
        left: Operand::Local(local),
        right: Operand::Known(0),
    }
}

// The number in a local is taken from a zero.
fn negate(none: Operand, local: u8) -> Instr
    ensures { result ≡ negated none local }
{
    Instr::Plain(Plain::Compute(Computation {
        operator: Operator::Minus,
        width: 4,
        to: local,
        left: none,
        right: Operand::Local(local),
    }))
}

/// The routine of division gives what the operators compute, of all numbers and all divisors but 0. It is small, and has no jump back.
pub fn division_is_right()
    ensures quotient { IsRoutineOf Divide divide }
    ensures remainder { IsRoutineOf Remainder divide }
    ensures short { IsShort divide }
    ensures sound { IsSound divide }
{}
