// Pieces of code.
ghost use Rattle.std.specs.Prelude.{◌≡◌, ◌+◌, ◌++◌, [], ◌∷◌, length, IfOk};
ghost use Rattle.vg_flatten_shapes.specs.Laying.{Places};

use crate::fault::Fault;
use crate::open::Open;
use crate::shape::Homes;
use std::alloc::Global;
use vg_base::{NoMemory, Refusal, Row};

/// The code of a block, and where the values wait behind it.
#[derive(Drop)]
pub struct Piece {
    pub code: Row<Open>,
    pub homes: Homes,
}

/// No instruction.
pub fn nothing(alloc: Global, homes: Homes) -> Piece
    ensures code { result.code ≡ [] }
    ensures homes { result.homes ≡ homes }
{
    Piece {
        code: Row::new(alloc),
        homes,
    }
}

/// One instruction.
pub fn one(alloc: Global, instr: Open, homes: Homes) -> Result<Piece, NoMemory>
    ensures { IfOk result (λ p. (p.code ≡ instr ∷ []) × (p.homes ≡ homes)) }
{
    let mut code = Row::new(alloc);
    code.push(instr)?;
    Ok(Piece { code, homes })
}

/// The second code behind the first.
pub fn append(first: Row<Open>, rest: &[Open]) -> Result<Row<Open>, NoMemory>
    ensures { IfOk result (λ code. code ≡ first ++ rest.now) }
{
    let mut things = first.into_vec();
    things.extend_from_slice(rest)?;
    Ok(Row::from_vec(things))
}

/// A piece behind a code.
pub fn behind(first: Row<Open>, rest: Piece) -> Result<Piece, NoMemory>
    ensures { IfOk result (λ p. (p.code ≡ first ++ rest.code) × (p.homes ≡ rest.homes)) }
{
    Ok(Piece {
        code: append(first, rest.code.as_slice())?,
        homes: rest.homes,
    })
}

/// The place so many instructions behind another.
pub fn place_behind(at: u16, count: usize) -> Result<u16, Refusal<Fault>>
    ensures { Places result (at + count) }
{
    let left = 65_535 - at;
    if count > left as usize {
        return Err(Refusal::Fault(Fault::TooLong));
    }
    Ok(at + count as u16)
}
