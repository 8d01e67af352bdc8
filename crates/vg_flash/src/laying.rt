// The layout of a flash.
ghost use Rattle.std.specs.Prelude.{◌≡◌, IfOk};
ghost use Rattle.vg_flash.specs.Flashes.{IsLayoutOf, SaysBound};

use crate::flash::{Flash, words_of};
use crate::room::Room;
use std::alloc::Global;
use vg_base::NoMemory;
use vg_fits::Fitted;
use vg_inventory::{Known, areas_of, live_names, method_names, objects_of, pieces_of};
use vg_layout::{Bound, Layout, StackBound};

/// The layout of the flash of what fits, whose stack has this room.
pub fn layout_of(
    alloc: Global,
    fitted: &Fitted,
    flash: &Flash,
    room: Room,
) -> Result<Layout, NoMemory>
    ensures { IfOk result (IsLayoutOf fitted.now flash.now room) }
{
    let known = known_of(fitted);
    let end = u32::from(words_of(&flash.image));
    let bound = bound_of(alloc, fitted, &flash.bound)?;
    let areas = areas_of(alloc, known)?;
    let objects = objects_of(alloc, known)?;
    let live = live_names(alloc, known)?;
    let pieces = pieces_of(alloc, known, flash.pieces.as_slice(), end)?;
    Ok(Layout {
        static_bytes: room.static_bytes,
        floor: room.floor,
        stack: room.stack,
        bound,
        idle: flash.idle,
        areas,
        objects,
        live,
        pieces,
    })
}

// How much stack is enough, with names in place of the numbers of methods.
fn bound_of(alloc: Global, fitted: &Fitted, bound: &StackBound) -> Result<Bound, NoMemory>
    ensures { IfOk result (SaysBound fitted.now bound.now) }
{
    match bound {
        StackBound::Bytes(bytes) => Ok(Bound::Bytes(*bytes)),
        StackBound::Cycle(methods) => {
            let start = &fitted.alive.start;
            let names = method_names(
                alloc,
                &start.program.tables,
                &start.names,
                methods.as_slice(),
            )?;
            Ok(Bound::Cycle(names))
        }
    }
}

/// What its layout tells of what fits.
pub fn known_of(fitted: &Fitted) -> Known<'_> {
    let start = &fitted.alive.start;
    Known {
        root: &start.tree.root,
        names: &start.names,
        program: &start.program,
        cells: start.heap.cells(),
        live: &fitted.alive.live,
        columns: fitted.placed.columns.list.as_slice(),
    }
}
