// What a step puts above what waits.
ghost use Rattle.std.specs.Prelude.{◌≡◌, ◌+◌, ◌≤◌, ◌∷◌, ◌++◌, [], IfOk, Some};
ghost use Rattle.vg_flatten_shapes.specs.declared.open.Open.TheVariants.{Set};
ghost use Rattle.vg_lin.specs.declared.instr.Operand.TheVariants.{Local};
ghost use Rattle.vg_flatten_shapes.specs.Shapes.{temp};
ghost use Rattle.vg_flatten_shapes.specs.Laying.{HasTemp};

use std::alloc::Global;
use vg_base::{NoMemory, Refusal, Row};
use vg_flatten_shapes::{Fault, Homes, Open, Piece, Room, Truth, nothing, one};
use vg_lin::{Instr, Operand};

/// The temporary for a value above these.
pub fn temp(room: Room, homes: &Homes) -> Result<u8, Refusal<Fault>>
    requires { room.locals + room.temps ≤ 252 }
    ensures { HasTemp result (temp room homes.now.homes) }
{
    if homes.len() < room.temps as usize {
        return Ok(room.locals + homes.len() as u8);
    }
    Err(Refusal::Fault(Fault::TooHigh))
}

/// An instruction whose value then waits in a temporary.
pub fn put_into(alloc: Global, to: u8, instr: Instr, homes: Homes) -> Result<Piece, NoMemory>
    ensures { IfOk result (λ p. (p.code ≡ Set instr ∷ []) × (p.homes ≡ record { truth = homes.truth; homes = Local to ∷ homes.homes })) }
{
    let mut homes = homes;
    homes.push(Operand::Local(to))?;
    one(alloc, Open::Set(instr), homes)
}

/// The same behind other code.
pub(crate) fn put_behind(
    code: Row<Open>,
    to: u8,
    instr: Instr,
    homes: Homes,
) -> Result<Piece, NoMemory>
    ensures { IfOk result (λ p. (p.code ≡ code ++ Set instr ∷ []) × (p.homes ≡ record { truth = homes.truth; homes = Local to ∷ homes.homes })) }
{
    let mut code = code;
    let mut homes = homes;
    code.push(Open::Set(instr))?;
    homes.push(Operand::Local(to))?;
    Ok(Piece { code, homes })
}

/// The home waits above the others, and costs nothing.
pub fn put_home(alloc: Global, home: Operand, homes: Homes) -> Result<Piece, NoMemory>
    ensures { IfOk result (λ p. (p.code ≡ []) × (p.homes ≡ record { truth = homes.truth; homes = home ∷ homes.homes })) }
{
    let mut homes = homes;
    homes.push(home)?;
    Ok(nothing(alloc, homes))
}

/// The test waits, and costs nothing.
pub(crate) fn put_truth(alloc: Global, truth: Truth, homes: Homes) -> Piece
    ensures { (result.code ≡ []) × (result.homes ≡ record { truth = Some truth; homes = homes.homes }) }
{
    let mut homes = homes;
    homes.wait_for(truth);
    nothing(alloc, homes)
}
