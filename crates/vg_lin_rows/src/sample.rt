// A procedure with arithmetic.
ghost use Rattle.std.specs.Prelude.{◌≡◌, [], ◌∷◌, IfOk};
ghost use Rattle.vg_lin.specs.declared.instr.Operand.TheVariants.{Local as InLocal};
ghost use Rattle.vg_lin.specs.declared.instr.Plain.TheVariants.{Compute as Computes};
ghost use Rattle.vg_lin.specs.declared.instr.Instr.TheVariants.{Plain as PlainInstr};
ghost use Rattle.vg_lin_rows.specs.Sample.{sample};

use std::alloc::Global;
use vg_base::{NoMemory, Row};
use vg_lin::{Comparison, Computation, Instr, LinProc, Operand, Operator, Plain, Test};

/// A procedure of two parameters: it divides, multiplies and shifts, where the second is not 0.
pub fn sample_procedure(alloc: Global) -> Result<LinProc, NoMemory>
    ensures { IfOk result (λ p. p ≡ sample) }
{
    let mut widths = Row::new(alloc);
    widths.push(4)?;
    widths.push(4)?;
    widths.push(2)?;
    let code = sample_code(alloc)?;
    Ok(LinProc::new(None, 2, 4, widths, code))
}

fn sample_code(alloc: Global) -> Result<Row<Instr>, NoMemory>
    ensures { IfOk result (λ code. code ≡ sample.code) }
{
    let mut code = Row::new(alloc);
    code.push(Instr::When(
        Test {
            comparison: Comparison::Same,
            width: 4,
            left: Operand::Local(1),
            right: Operand::Known(0),
        },
        5,
    ))?;
    code.push(computing(Operator::Divide, 4, 0, 0, Operand::Local(1)))?;
    code.push(computing(Operator::Times, 2, 2, 0, Operand::Local(1)))?;
    code.push(computing(Operator::Times, 4, 1, 0, Operand::Known(9)))?;
    code.push(computing(Operator::ShiftRight, 4, 0, 1, Operand::Local(0)))?;
    code.push(Instr::Return(4, Operand::Local(0)))?;
    Ok(code)
}

fn computing(operator: Operator, width: u8, to: u8, left: u8, right: Operand) -> Instr
    ensures { result ≡ PlainInstr (Computes (record { operator = operator; width = width; to = to; left = InLocal left; right = right })) }
{
    Instr::Plain(Plain::Compute(Computation {
        operator,
        width,
        to,
        left: Operand::Local(left),
        right,
    }))
}
