// Computations.
ghost use Rattle.std.specs.Prelude.{◌≡◌, ◌≤◌, ◌<◌, ◌+◌, ◌++◌, OnOk, length};
ghost use Rattle.vg_templates.specs.Plains.{computation_code, pops_from, pops_value};
ghost use Rattle.vg_alloc.specs.Locations.{layout};
ghost use Rattle.vg_put_values.specs.Within.{IsThere};

use avr_instr::{Instr, Register};
use std::alloc::Global;
use vg_alloc::Locations;
use vg_base::{NoMemory, Row};
use vg_lin::{Computation, Operand, Operator};
use vg_put_operations::{
    put_shifts_left, put_shifts_left_by, put_shifts_right, put_shifts_right_by,
};
use vg_put_plain::put_computes;
use vg_put_values::put_gives;

/// A computation: a shift, or an operation byte by byte.
pub fn put_computation(
    alloc: Global,
    code: &mut Row<Instr>,
    locations: &Locations,
    computation: Computation,
) -> Result<(), NoMemory>
    requires narrow { computation.width ≤ 4 }
    requires there { computation.to < length locations.now.widths }
    requires left { IsThere (layout locations.now) computation.left }
    requires right { IsThere (layout locations.now) computation.right }
    ensures { OnOk result (code.new ≡ code.old ++ computation_code (layout locations.now) computation computation.operator computation.right) }
{
    match (computation.operator, computation.right) {
        (Operator::ShiftLeft, Operand::Known(amount)) => put_shifts_left(
            code,
            locations,
            computation.width,
            computation.to,
            computation.left,
            amount,
        ),
        (Operator::ShiftRight, Operand::Known(amount)) => put_shifts_right(
            code,
            locations,
            computation.width,
            computation.to,
            computation.left,
            amount,
        ),
        (Operator::ShiftLeft, Operand::Local(amount)) => put_shifts_left_by(
            code,
            locations,
            computation.width,
            computation.to,
            computation.left,
            amount,
        ),
        (Operator::ShiftRight, Operand::Local(amount)) => put_shifts_right_by(
            code,
            locations,
            computation.width,
            computation.to,
            computation.left,
            amount,
        ),
        _ => put_computes(alloc, code, locations, computation),
    }
}

fn put_pops_from(code: &mut Row<Instr>, d: u8, count: u8) -> Result<(), NoMemory>
    requires { d + count ≤ 32 }
    ensures { OnOk result (code.new ≡ code.old ++ pops_from d count) }
{
    if count == 0 {
        return Ok(());
    }
    code.push(Instr::Pop(Register::new(d)))?;
    put_pops_from(code, d + 1, count - 1)
}

/// The newest value that waits, of so many bytes, goes to a local.
pub fn put_pops_value(
    code: &mut Row<Instr>,
    locations: &Locations,
    width: u8,
    to: u8,
) -> Result<(), NoMemory>
    requires narrow { width ≤ 4 }
    requires there { to < length locations.now.widths }
    ensures { OnOk result (code.new ≡ code.old ++ pops_value (layout locations.now) width to) }
{
    put_pops_from(code, 22, width)?;
    put_gives(code, locations, to, 22, width)
}
