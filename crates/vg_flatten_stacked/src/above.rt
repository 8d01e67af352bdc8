// Choices by a newer value, whose ways take newer values alone: above the pushed values they are what code is with a home for each.
ghost use Rattle.std.specs.Prelude.{◌≡◌, ◌+◌, ◌≤◌};
ghost use Rattle.vg_meaning.specs.Code.{Nothing};
ghost use Rattle.vg_firm.specs.Held.{code_of};
ghost use Rattle.vg_flatten_control.specs.Weights.{arms_list};
ghost use Rattle.vg_flatten_shapes.specs.Laying.{Lays};
ghost use Rattle.vg_flatten_pushed.specs.Stacked.{by_newer};

use crate::calm::{arm_is_calm, choice_is_calm, is_calm};
use std::alloc::Global;
use vg_base::Refusal;
use vg_firm::Code;
use vg_flatten_control::flat::{arm_or, arm_or_nothing, chosen};
use vg_flatten_pushed::{onto, part};
use vg_flatten_shapes::{Fault, Homes, Layout, Piece, Room};

/// A choice by a newer value. `NotTaken` where one of its ways loops or leaves.
pub fn chosen_above(
    alloc: Global,
    layout: &Layout,
    room: Room,
    most: u16,
    at: u16,
    first: &Code,
    rest: &Code,
    homes: Homes,
) -> Result<Piece, Refusal<Fault>>
    requires { room.locals + room.temps ≤ 252 }
    ensures { Lays result at (by_newer layout.now room most (code_of first.now) (code_of rest.now) homes) }
{
    if choice_is_calm(first, rest) {
        let parts = part(alloc, most, homes)?;
        let made = chosen(alloc, layout, room, at, first, rest, parts.above);
        return onto(alloc, made, parts.below);
    }
    Err(Refusal::Fault(Fault::NotTaken))
}

/// The same of an arm's block and the other arms.
pub fn arm_or_above(
    alloc: Global,
    layout: &Layout,
    room: Room,
    most: u16,
    at: u16,
    block: &Code,
    more: &[Code],
    last: &Code,
    homes: Homes,
) -> Result<Piece, Refusal<Fault>>
    requires { room.locals + room.temps ≤ 252 }
    ensures { Lays result at (by_newer layout.now room most (code_of block.now) (arms_list more.now (code_of last.now)) homes) }
{
    if arm_is_calm(block, more, last) {
        let parts = part(alloc, most, homes)?;
        let made = arm_or(alloc, layout, room, at, block, more, last, parts.above);
        return onto(alloc, made, parts.below);
    }
    Err(Refusal::Fault(Fault::NotTaken))
}

/// The same of an arm's block alone.
pub fn arm_or_nothing_above(
    alloc: Global,
    layout: &Layout,
    room: Room,
    most: u16,
    at: u16,
    block: &Code,
    homes: Homes,
) -> Result<Piece, Refusal<Fault>>
    requires { room.locals + room.temps ≤ 252 }
    ensures { Lays result at (by_newer layout.now room most (code_of block.now) Nothing homes) }
{
    if is_calm(block) {
        let parts = part(alloc, most, homes)?;
        let made = arm_or_nothing(alloc, layout, room, at, block, parts.above);
        return onto(alloc, made, parts.below);
    }
    Err(Refusal::Fault(Fault::NotTaken))
}
