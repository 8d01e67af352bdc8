// Calls.
ghost use Rattle.std.specs.Prelude.{◌≡◌, [], ◌∷◌, ◌++◌, OnOk};
ghost use Rattle.vg_templates.specs.Calls.{call_code};
ghost use Rattle.vg_templates.specs.Returns.{pops_away, drops};
ghost use Rattle.vg_templates.specs.Flow.{aims};
ghost use Rattle.vg_alloc.specs.Locations.{layout};
ghost use Rattle.vg_put_flow.specs.Ways.{call_of};
ghost use Rattle.vg_put_flow.specs.Callees.{IsCalleeThere};

use crate::ways::Way;
use avr_instr::{Instr, Register};
use vg_alloc::Locations;
use vg_base::{NoMemory, Row};
use vg_lin::Callee;
use vg_put_chains::put_sp_is_y;
use vg_put_values::put_brings_z;

/// The code number of what is called comes into Z, where it is a value.
pub fn put_aims(
    code: &mut Row<Instr>,
    locations: &Locations,
    callee: Callee,
) -> Result<(), NoMemory>
    requires { IsCalleeThere (layout locations.now) callee }
    ensures { OnOk result (code.new ≡ code.old ++ aims (layout locations.now) callee) }
{
    match callee {
        Callee::Procedure(_) => Ok(()),
        Callee::Code(operand) => put_brings_z(code, locations, operand),
    }
}

/// The instruction that calls.
pub fn put_call(code: &mut Row<Instr>, way: Way) -> Result<(), NoMemory>
    ensures { OnOk result (code.new ≡ code.old ++ call_code (call_of way) ∷ []) }
{
    match way {
        Way::Near(distance) => code.push(Instr::Rcall(distance)),
        Way::Far(entry) => code.push(Instr::Call(entry)),
        Way::ByZ => code.push(Instr::Icall),
    }
}

fn put_pops_away(code: &mut Row<Instr>, bytes: u16) -> Result<(), NoMemory>
    ensures { OnOk result (code.new ≡ code.old ++ pops_away bytes) }
{
    if bytes == 0 {
        return Ok(());
    }
    code.push(Instr::Pop(Register::new(0)))?;
    put_pops_away(code, bytes - 1)
}

/// So many bytes of arguments are dropped: byte by byte, or all at once by the frame pointer.
pub fn put_drops(code: &mut Row<Instr>, at_once: bool, bytes: u16) -> Result<(), NoMemory>
    ensures { OnOk result (code.new ≡ code.old ++ drops at_once bytes) }
{
    if at_once {
        return put_sp_is_y(code);
    }
    put_pops_away(code, bytes)
}
