// Whether operands are in range.
ghost use Rattle.std.specs.Prelude.{IsTrue};
ghost use Rattle.std.specs.List.{AllByRecursion};
ghost use Rattle.vg_lin.specs.declared.instr.Plain.TheVariants.{Compute};
ghost use Rattle.vg_lin.specs.Meaning.{operands};
ghost use Rattle.vg_lin.specs.Sound.{IsWidth, IsLocal, IsOperand, IsPassed, IsTo, IsTest, IsCallee, IsPlain, AreOperands};
ghost use Rattle.vg_trim.specs.Ranges.{with_locals};

use vg_lin::{Callee, Computation, Instr, Operand, Passed, Plain, Registers, Target, Test};

fn is_width(width: u8) -> bool
    ensures { IsTrue result → IsWidth width }
{
    1 <= width && width <= 4
}

fn is_local(widths: &[u8], result_width: u8, local: u8) -> bool
    ensures { IsTrue result → IsLocal (with_locals widths.now result_width) local }
{
    usize::from(local) < widths.len()
}

fn is_operand(widths: &[u8], result_width: u8, operand: Operand) -> bool
    ensures { IsTrue result → IsOperand (with_locals widths.now result_width) operand }
{
    match operand {
        Operand::Local(local) => is_local(widths, result_width, local),
        Operand::Known(_) => true,
    }
}

fn is_passed(widths: &[u8], result_width: u8, passed: Passed) -> bool
    ensures { IsTrue result → IsPassed (with_locals widths.now result_width) passed }
{
    is_width(passed.width) && is_operand(widths, result_width, passed.value)
}

fn are_passed(widths: &[u8], result_width: u8, registers: Registers) -> bool
    ensures { IsTrue result → AllByRecursion (IsPassed (with_locals widths.now result_width)) (operands registers) }
{
    match registers {
        Registers::Empty => true,
        Registers::One(a) => is_passed(widths, result_width, a),
        Registers::Two(a, b) => {
            is_passed(widths, result_width, a) && is_passed(widths, result_width, b)
        }
        Registers::Three(a, b, c) => {
            is_passed(widths, result_width, a)
                && is_passed(widths, result_width, b)
                && is_passed(widths, result_width, c)
        }
        Registers::Four(a, b, c, d) => {
            is_passed(widths, result_width, a)
                && is_passed(widths, result_width, b)
                && is_passed(widths, result_width, c)
                && is_passed(widths, result_width, d)
        }
    }
}

fn is_to(widths: &[u8], result_width: u8, to: Option<Target>) -> bool
    ensures { IsTrue result → IsTo (with_locals widths.now result_width) to }
{
    match to {
        Some(target) => target.width <= 4 && is_local(widths, result_width, target.local),
        None => true,
    }
}

fn is_test(widths: &[u8], result_width: u8, test: Test) -> bool
    ensures { IsTrue result → IsTest (with_locals widths.now result_width) test }
{
    is_width(test.width)
        && is_operand(widths, result_width, test.left)
        && is_operand(widths, result_width, test.right)
}

fn is_callee(widths: &[u8], result_width: u8, callee: Callee) -> bool
    ensures { IsTrue result → IsCallee (with_locals widths.now result_width) callee }
{
    match callee {
        Callee::Procedure(_) => true,
        Callee::Code(operand) => is_operand(widths, result_width, operand),
    }
}

/// Whether the operands of a plain instruction are in range. A product and the steps of a division are not taken.
fn is_plain(widths: &[u8], result_width: u8, plain: Plain) -> bool
    ensures { IsTrue result → IsPlain (with_locals widths.now result_width) plain }
{
    match plain {
        Plain::Copy(to, a) => {
            is_local(widths, result_width, to) && is_operand(widths, result_width, a)
        }
        Plain::Compute(c) => is_computation(widths, result_width, c),
        Plain::Load(_, width, to, address) => {
            is_width(width)
                && is_local(widths, result_width, to)
                && is_operand(widths, result_width, address.index)
        }
        Plain::Store(width, address, from) => {
            is_width(width)
                && is_operand(widths, result_width, address.index)
                && is_operand(widths, result_width, from)
        }
        Plain::ReadDevice(to, _) => is_local(widths, result_width, to),
        Plain::WriteDevice(_, a) => is_operand(widths, result_width, a),
        Plain::Push(width, a) => is_width(width) && is_operand(widths, result_width, a),
        Plain::Pop(width, to) => is_width(width) && is_local(widths, result_width, to),
        Plain::Find(_, to, a) => {
            is_local(widths, result_width, to) && is_operand(widths, result_width, a)
        }
        Plain::CodeOf(_, to) => is_local(widths, result_width, to),
        Plain::Stop(_) => true,
        _ => false,
    }
}

fn is_computation(widths: &[u8], result_width: u8, c: Computation) -> bool
    ensures { IsTrue result → IsPlain (with_locals widths.now result_width) (Compute c) }
{
    is_width(c.width)
        && is_local(widths, result_width, c.to)
        && is_operand(widths, result_width, c.left)
        && is_operand(widths, result_width, c.right)
}

/// Whether the operands of an instruction are in range, in a procedure with locals of these widths and a result of so many bytes.
pub fn are_operands(widths: &[u8], result_width: u8, instr: Instr) -> bool
    ensures { IsTrue result → AreOperands (with_locals widths.now result_width) instr }
{
    match instr {
        Instr::Plain(plain) => is_plain(widths, result_width, plain),
        Instr::When(test, _) => is_test(widths, result_width, test),
        Instr::Unless(test, _) => is_test(widths, result_width, test),
        Instr::Jump(_) => true,
        Instr::Call(call) => {
            is_callee(widths, result_width, call.callee)
                && are_passed(widths, result_width, call.registers)
                && is_to(widths, result_width, call.to)
        }
        Instr::Return(width, a) => { width == result_width && is_operand(widths, result_width, a) }
        Instr::Idle => true,
    }
}
