// From the bytes of a source text to what is live in it.
ghost use Rattle.std.specs.Prelude.{◌≡◌, ◌++◌, ◌≤◌, IfOk, OnOk, length, slice_get};
ghost use Rattle.vg_base.specs.Limits.{text_limit};
ghost use Rattle.vg_faults.specs.Living.{place_text};
ghost use Rattle.vg_alive.specs.Answer.{Lives};
ghost use Rattle.vg_alive.specs.Mirrors.{Searches, allocation, line_of, method_word};

use itoa::Buffer;
use std::alloc::Global;
use vg_base::{NoMemory, NodeId, Place, Refusal, Row};
use vg_faults::Fault;
use vg_front::{Start, place_in, started};
use vg_live::LiveSet;
use vg_lookup::{class_or_component, text_of};
use vg_reach::{Allocates, live};

/// A source text that starts, and what of it is live: no live method makes anything.
pub struct Alive {
    pub start: Start,
    /// The live members of the program and of its heap, each with a reason.
    pub live: LiveSet,
}

impl Drop for Alive {
    // By hand: a function that may drop one calls this, where it would have a copy of a derived one.
    fn drop(self) {
        let Alive { start: _, live: _ } = self;
    }
}

/// What a source text of at most 262,144 bytes starts with, where it is initialised in at most so many ticks, and what of it is live; or the fault of the text, the
/// first in the order of `Fault`.
#[tactic(auto, using(crate::proofs::Live::starts_by))]
pub fn find_live(alloc: Global, text: &[u8], steps: u32) -> Result<Alive, Refusal<Fault>>
    requires { length text.now ≤ text_limit }
    ensures { Lives text.now steps result }
{
    match started(alloc, text, steps) {
        Ok(start) => match searched(alloc, &start) {
            Ok(live) => Ok(Alive { start, live }),
            Err(refusal) => Err(refusal),
        },
        Err(refusal) => Err(refusal),
    }
}

// What of a text that starts is live.
fn searched(alloc: Global, start: &Start) -> Result<LiveSet, Refusal<Fault>>
    ensures { Searches start.now result }
{
    match live(alloc, &start.program, &start.heap) {
        Ok(live) => Ok(live),
        Err(Refusal::Fault(found)) => match allocation(alloc, start, found) {
            Ok(fault) => Err(Refusal::Fault(fault)),
            Err(NoMemory) => Err(Refusal::NoMemory),
        },
        Err(Refusal::NoMemory) => Err(Refusal::NoMemory),
    }
}

// The fault of a live method that would make something.
fn allocation(alloc: Global, start: &Start, found: Allocates) -> Result<Fault, NoMemory>
    ensures { IfOk result (λ fault. fault ≡ allocation start.now found) }
{
    let place = place_in(&start.tree, NodeId(found.node));
    let line = line_of(alloc, start, found.method, place)?;
    Ok(Fault::Allocates { place, line })
}

// Its line.
fn line_of(alloc: Global, start: &Start, method: u16, place: Place) -> Result<Row<u8>, NoMemory>
    ensures { IfOk result (λ line. line ≡ line_of start.now method place) }
{
    let mut line = Row::from_slice(alloc, b"allocates ")?;
    put_method(&mut line, start, method)?;
    line.append(b" at ")?;
    put_place(&mut line, place)?;
    line.append(b"\n")?;
    Ok(line)
}

// Puts the name of a method behind that of what declares it, where the method is there.
fn put_method(text: &mut Row<u8>, start: &Start, method: u16) -> Result<(), NoMemory>
    ensures { OnOk result (text.new ≡ text.old
        ++ method_word start.now.names start.now.program.tables (slice_get start.now.program.tables.methods method)) }
{
    match start
        .program
        .tables
        .methods
        .as_slice()
        .get(usize::from(method))
    {
        Some(found) => {
            text.append(class_or_component(&start.names, &start.program.tables, found.owner))?;
            text.append(b".")?;
            text.append(text_of(&start.names, found.name))
        }
        None => Ok(()),
    }
}

// Puts a place behind a text.
fn put_place(text: &mut Row<u8>, place: Place) -> Result<(), NoMemory>
    ensures { OnOk result (text.new ≡ text.old ++ place_text place) }
{
    text.append(Buffer::new().format(place.line).as_bytes())?;
    text.append(b":")?;
    text.append(Buffer::new().format(place.col).as_bytes())
}
