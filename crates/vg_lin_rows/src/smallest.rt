// The smallest procedure of linear code.
ghost use Rattle.std.specs.Prelude.{◌≡◌, [], ◌∷◌, IfOk};
ghost use Rattle.vg_lin_rows.specs.Smallest.{smallest};

use std::alloc::Global;
use vg_base::{NoMemory, Row};
use vg_lin::{Instr, LinProc, Operand};

/// The procedure that returns nothing: it has no locals and one instruction.
pub fn smallest_procedure(alloc: Global) -> Result<LinProc, NoMemory>
    ensures { IfOk result (λ p. p ≡ smallest) }
{
    let mut code = Row::new(alloc);
    code.push(Instr::Return(0, Operand::Known(0)))?;
    Ok(LinProc::new(None, 0, 0, Row::new(alloc), code))
}
