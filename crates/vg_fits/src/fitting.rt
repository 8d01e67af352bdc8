// From the bytes of a source text to its columns.
ghost use Rattle.std.specs.Prelude.{◌≤◌, length};
ghost use Rattle.vg_base.specs.Limits.{text_limit};
ghost use Rattle.vg_fits.specs.Answer.{Fits};
ghost use Rattle.vg_fits.specs.Mirrors.{CanPlace, PlacedBy};

use std::alloc::Global;
use vg_alive::{Alive, find_live};
use vg_base::Refusal;
use vg_faults::Fault;
use vg_number::{Numbers, number};
use vg_place::{Columns, PlaceFault, place};

/// The numbers of live cells, and the columns of live fields and arrays.
#[derive(Drop)]
pub struct Placed {
    pub numbers: Numbers,
    pub columns: Columns,
}

/// A source text that starts and whose live methods make nothing, with what of it is live, and where that stands.
pub struct Fitted {
    pub alive: Alive,
    pub placed: Placed,
}

impl Drop for Fitted {
    // By hand: a function that may drop one calls this, where it would have a copy of a derived one.
    fn drop(self) {
        let Fitted {
            alive: _,
            placed: _,
        } = self;
    }
}

/// What is live of a source text of at most 262,144 bytes, where it is initialised in at most so many ticks, with its numbers and its columns; or the fault of the
/// text, the first in the order of `Fault`.
#[tactic(auto, using(crate::proofs::Answering::lives_by))]
pub fn fit(alloc: Global, text: &[u8], steps: u32) -> Result<Fitted, Refusal<Fault>>
    requires { length text.now ≤ text_limit }
    ensures { Fits text.now steps result }
{
    match find_live(alloc, text, steps) {
        Ok(alive) => match place_live(alloc, &alive) {
            Ok(placed) => Ok(Fitted { alive, placed }),
            Err(refusal) => Err(refusal),
        },
        Err(refusal) => Err(refusal),
    }
}

// The numbers and the columns of what is live.
fn place_live(alloc: Global, alive: &Alive) -> Result<Placed, Refusal<Fault>>
    requires { CanPlace alive.now.start }
    ensures { PlacedBy alive.now result }
{
    let start = &alive.start;
    let numbers = number(alloc, &start.program, &start.heap, &alive.live)?;
    match place(alloc, &start.program, &start.heap, &alive.live, &numbers) {
        Ok(columns) => Ok(Placed { numbers, columns }),
        Err(Refusal::Fault(PlaceFault::StaticFull { need })) => {
            Err(Refusal::Fault(Fault::StaticFull { need }))
        }
        Err(Refusal::Fault(PlaceFault::TableFull { need })) => {
            Err(Refusal::Fault(Fault::TableFull { need }))
        }
        Err(Refusal::NoMemory) => Err(Refusal::NoMemory),
    }
}
