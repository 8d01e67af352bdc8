// The routines of the shifts by an amount that is not known.
ghost use Rattle.std.specs.Prelude.{◌≡◌, ◌++◌, replicate, IfOk, OnOk};
ghost use Rattle.vg_lin.specs.declared.instr.Operator.TheVariants.{And as AndOf, ShiftLeft, ShiftRight};
ghost use Rattle.vg_lin.specs.declared.instr.Plain.TheVariants.{Compute as Computes};
ghost use Rattle.vg_lin.specs.declared.instr.Instr.TheVariants.{Plain as PlainInstr};
ghost use Rattle.vg_lin.specs.declared.instr.Operand.TheVariants.{Local};
ghost use Rattle.vg_lin.specs.Sound.{IsSound};
ghost use Rattle.vg_arith.specs.Routines.{IsRoutineOf, IsShort};
ghost use Rattle.vg_arith.specs.Shifts.{shifts_back, shl, shr};

use std::alloc::Global;
use vg_base::{NoMemory, Row};
use vg_lin::{Computation, Instr, LinProc, Operand, Operator, Plain};

/// The routine of the shift to the left.
pub fn left_shift_routine(alloc: Global) -> Result<LinProc, NoMemory>
    ensures { IfOk result (λ p. p ≡ shl) }
{
    let mut code = Row::new(alloc);
    push_shift(&mut code, Operator::ShiftLeft)?;
    let widths = fours(alloc, 2)?;
    Ok(LinProc::new(None, 2, 4, widths, code))
}

/// The routine of the shift to the right. A third argument has the bits of the value that the shift sees.
pub fn right_shift_routine(alloc: Global) -> Result<LinProc, NoMemory>
    ensures { IfOk result (λ p. p ≡ shr) }
{
    let mut code = Row::new(alloc);
    code.push(seen())?;
    push_shift(&mut code, Operator::ShiftRight)?;
    let widths = fours(alloc, 3)?;
    Ok(LinProc::new(None, 3, 4, widths, code))
}

// The widths of so many locals of four bytes.
fn fours(alloc: Global, count: usize) -> Result<Row<u8>, NoMemory>
    ensures { IfOk result (λ widths. widths ≡ replicate count 4) }
{
    Ok(Row::from_vec(Vec::from_elem(alloc, 4, count)?))
}

// The bits of the value that a shift sees.
fn seen() -> Instr
    ensures { result ≡ PlainInstr (Computes (record { operator = AndOf; width = 4; to = 0; left = Local 0; right = Local 2 })) }
{
    Instr::Plain(Plain::Compute(Computation {
        operator: Operator::And,
        width: 4,
        to: 0,
        left: Operand::Local(0),
        right: Operand::Local(2),
    }))
}

// The value is shifted by the amount, and given back.
fn push_shift(code: &mut Row<Instr>, operator: Operator) -> Result<(), NoMemory>
    ensures { OnOk result (code.new ≡ code.old ++ shifts_back operator) }
{
    code.push(Instr::Plain(Plain::Compute(Computation {
        operator,
        width: 4,
        to: 0,
        left: Operand::Local(0),
        right: Operand::Local(1),
    })))?;
    code.push(Instr::Return(4, Operand::Local(0)))?;
    Ok(())
}

/// The routines of both shifts give what the operators compute, of all widths, values and amounts. They are small, and have no jump
/// back.
pub fn shifts_are_right()
    ensures left { IsRoutineOf ShiftLeft shl }
    ensures right { IsRoutineOf ShiftRight shr }
    ensures short { IsShort shl × IsShort shr }
    ensures sound { IsSound shl × IsSound shr }
{}
