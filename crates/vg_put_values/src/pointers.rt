// Operands that come into Z.
ghost use Rattle.std.specs.Prelude.{◌≡◌, ◌≤◌, [], ◌∷◌, ◌++◌, OnOk};
ghost use Rattle.avr_instr.specs.declared.instr.Instr.TheVariants.{Movw};
ghost use Rattle.vg_templates.specs.Pointers.{fetch_z, brings_z};
ghost use Rattle.vg_alloc.specs.Locations.{layout, place, IsWithin};
ghost use Rattle.vg_put_values.specs.Within.{IsThere};

use crate::operands::put_fetch;
use avr_instr::{Instr, RegisterPair};
use vg_alloc::{Locations, Spot};
use vg_base::{NoMemory, Row};
use vg_lin::Operand;
use vg_put_chains::{put_known, put_moves};

// What is in X goes to Z.
fn put_x_to_z(code: &mut Row<Instr>) -> Result<(), NoMemory>
    ensures { OnOk result (code.new ≡ code.old ++ Movw 30 26 ∷ []) }
{
    code.push(Instr::Movw(RegisterPair::new(30), RegisterPair::new(26)))
}

// The value at a spot of `width` bytes.
fn put_fetch_z(code: &mut Row<Instr>, spot: Spot, width: u8) -> Result<(), NoMemory>
    requires narrow { width ≤ 4 }
    requires within { IsWithin spot width }
    ensures { OnOk result (code.new ≡ code.old ++ fetch_z (place spot) width) }
{
    match spot {
        Spot::Frame(_) => {
            put_fetch(code, spot, width, 26, 2)?;
            put_x_to_z(code)
        }
        Spot::Registers(first) => put_moves(code, first, 30, width, 2),
    }
}

/// The low bytes of an operand's value come into Z.
pub fn put_brings_z(
    code: &mut Row<Instr>,
    locations: &Locations,
    operand: Operand,
) -> Result<(), NoMemory>
    requires { IsThere (layout locations.now) operand }
    ensures { OnOk result (code.new ≡ code.old ++ brings_z (layout locations.now) operand) }
{
    match operand {
        Operand::Local(k) => put_fetch_z(code, locations.spot(k), locations.width(k)),
        Operand::Known(x) => {
            put_known(code, 26, 2, u64::from(x))?;
            put_x_to_z(code)
        }
    }
}
