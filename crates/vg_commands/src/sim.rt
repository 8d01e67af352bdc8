// The command `sim`.
ghost use Rattle.std.specs.Prelude.{◌≡◌, ℕ, Some};
ghost use Rattle.vg_io.specs.Count.{Rose};
ghost use Rattle.vg_words.specs.Commands.{Sim};
ghost use Rattle.vg_commands.specs.Commands.{requests_of};
ghost use Rattle.vg_commands.specs.Leaves.{FetchedBy, SimBy, change};

use crate::answers::{status_of_simulated, status_without_file};
use std::alloc::Global;
use vg_base::IMAGE_TEXT_LIMIT;
use vg_fetch::fetch_two;
use vg_io::{Shelf, Sink};
use vg_sim::simulate_text;
use vg_status::Status;

/// Fetches the two files, runs the image of the first on the script of the second for at most so many instructions, and puts the
/// lines of its trace and of its ending to `out`.
pub fn run_sim<S: Shelf, O: Sink>(
    alloc: Global,
    hex: &str,
    script: &str,
    steps: u32,
    shelf: &mut S,
    out: &mut O,
) -> Status
    ensures fetched { FetchedBy result (S.asked shelf.old) (S.asked shelf.new) (requests_of (Some (Sim hex.now script.now steps))) }
    ensures read { result ≡ Status.ReadFault → Rose (S.faults shelf.old) (S.faults shelf.new) }
    ensures holds { SimBy result (S.told shelf.old) hex.now script.now steps (change (O.told out.old) (O.told out.new) (O.faults out.old) (O.faults out.new)) }
{
    let (image, events) = match fetch_two(shelf, hex, IMAGE_TEXT_LIMIT, script, IMAGE_TEXT_LIMIT) {
        Ok(texts) => texts,
        Err(reason) => return status_without_file(reason),
    };
    status_of_simulated(simulate_text(alloc, &image, &events, steps, out))
}
