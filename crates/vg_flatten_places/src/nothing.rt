// What loads and stores of what is not there become.
ghost use Rattle.std.specs.Prelude.{◌≡◌, None};
ghost use Rattle.vg_flatten_shapes.specs.Laying.{Lays};
ghost use Rattle.vg_flatten_places.specs.Places.{load_no_field, store_no_field, load_nothing, store_nothing, load_no_item, store_no_item};

use crate::nulls::null_check;
use std::alloc::Global;
use vg_base::Refusal;
use vg_flatten_shapes::{Fault, Homes, Piece, Room, Truth, stop_where};
use vg_flatten_values::is_zero;
use vg_lin::Operand;

/// The null check of a field that no object has, whose value is 0.
#[tactic(auto, using(vg_flatten_shapes::proofs::Sizes::late))]
pub fn load_no_field(
    alloc: Global,
    room: Room,
    at: u16,
    homes: Homes,
) -> Result<Piece, Refusal<Fault>>
    requires { homes.truth ≡ None }
    ensures { Lays result at (load_no_field room homes.homes) }
{
    let mut homes = homes;
    match homes.pop() {
        Some(home) => {
            let code = null_check(alloc, room, at, home)?;
            homes.push(Operand::Known(0))?;
            Ok(Piece { code, homes })
        }
        None => Err(Refusal::Fault(Fault::NotTaken)),
    }
}

/// The null check of a field that is not kept.
#[tactic(auto, using(vg_flatten_shapes::proofs::Sizes::late))]
pub fn store_no_field(
    alloc: Global,
    room: Room,
    at: u16,
    homes: Homes,
) -> Result<Piece, Refusal<Fault>>
    requires { homes.truth ≡ None }
    ensures { Lays result at (store_no_field room homes.homes) }
{
    let mut homes = homes;
    match (homes.pop(), homes.pop()) {
        (Some(_), Some(home)) => {
            let code = null_check(alloc, room, at, home)?;
            Ok(Piece { code, homes })
        }
        _ => Err(Refusal::Fault(Fault::NotTaken)),
    }
}

/// The null check of an array of which nothing is there: 0 is read.
#[tactic(auto, using(vg_flatten_shapes::proofs::Sizes::late))]
pub(crate) fn load_nothing(alloc: Global, at: u16, homes: Homes) -> Result<Piece, Refusal<Fault>>
    requires { homes.truth ≡ None }
    ensures { Lays result at (load_nothing homes.homes) }
{
    let mut homes = homes;
    match homes.pop() {
        Some(home) => {
            let code = stop_where(alloc, at, 1, Truth::Holds(is_zero(home)))?;
            homes.push(Operand::Known(0))?;
            Ok(Piece { code, homes })
        }
        None => Err(Refusal::Fault(Fault::NotTaken)),
    }
}

/// The same where it is written.
#[tactic(auto, using(vg_flatten_shapes::proofs::Sizes::late))]
fn store_nothing(alloc: Global, at: u16, homes: Homes) -> Result<Piece, Refusal<Fault>>
    requires { homes.truth ≡ None }
    ensures { Lays result at (store_nothing homes.homes) }
{
    let mut homes = homes;
    match (homes.pop(), homes.pop()) {
        (Some(_), Some(home)) => {
            let code = stop_where(alloc, at, 1, Truth::Holds(is_zero(home)))?;
            Ok(Piece { code, homes })
        }
        _ => Err(Refusal::Fault(Fault::NotTaken)),
    }
}

/// The null check of an element of a type that has no arrays.
pub(crate) fn load_no_item(alloc: Global, at: u16, homes: Homes) -> Result<Piece, Refusal<Fault>>
    requires { homes.truth ≡ None }
    ensures { Lays result at (load_no_item homes.homes) }
{
    let mut homes = homes;
    match homes.pop() {
        Some(_) => load_nothing(alloc, at, homes),
        None => Err(Refusal::Fault(Fault::NotTaken)),
    }
}

/// The same of one that gets a value.
pub(crate) fn store_no_item(alloc: Global, at: u16, homes: Homes) -> Result<Piece, Refusal<Fault>>
    requires { homes.truth ≡ None }
    ensures { Lays result at (store_no_item homes.homes) }
{
    let mut homes = homes;
    match (homes.pop(), homes.pop()) {
        (Some(value), Some(_)) => {
            homes.push(value)?;
            store_nothing(alloc, at, homes)
        }
        _ => Err(Refusal::Fault(Fault::NotTaken)),
    }
}
