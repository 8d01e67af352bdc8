// The command `build`.
ghost use Rattle.std.specs.Prelude.{◌≡◌, ◌⊎◌, ◌≤◌, ℕ, Some, IfSome, OnOk, OnErr};
ghost use Rattle.vg_io.specs.Count.{Rose};
ghost use Rattle.vg_words.specs.Commands.{Build};
ghost use Rattle.vg_commands.specs.Commands.{requests_of};
ghost use Rattle.vg_commands.specs.Leaves.{FetchedBy, GainsAll, change};
ghost use Rattle.vg_drive.specs.Mirrors.{BuildBy, PutFails};

use std::alloc::Global;
use vg_base::TEXT_LIMIT;
use vg_build::{Built, build};
use vg_commands::{status_of_refusal, status_without_file};
use vg_fetch::fetch_file;
use vg_io::{Failed, Shelf, Sink};
use vg_status::Status;

// The HEX text goes to `out`, and then the layout to `note`.
fn put_both<O: Sink, N: Sink>(built: &Built, out: &mut O, note: &mut N) -> Result<(), Failed>
    ensures hex { OnOk result (GainsAll
        (change (O.told out.old) (O.told out.new) (O.faults out.old) (O.faults out.new)) built.now.hex) }
    ensures note { OnOk result (GainsAll
        (change (N.told note.old) (N.told note.new) (N.faults note.old) (N.faults note.new)) built.now.note) }
    ensures fails { OnErr result (PutFails built.now
        (change (O.told out.old) (O.told out.new) (O.faults out.old) (O.faults out.new))
        (change (N.told note.old) (N.told note.new) (N.faults note.old) (N.faults note.new))) }
    ensures later { N.faults note.old ≤ N.faults note.new }
{
    match out.put(built.hex.as_slice()) {
        Err(Failed) => Err(Failed),
        Ok(()) => note.put(built.note.as_slice()),
    }
}

/// Fetches the file of this name, puts the HEX text of its image to `out`, and then the layout to `note`. The image has the stack that is asked for,
/// where one is, and initialisation may take so many ticks.
pub fn run_build<S: Shelf, O: Sink, N: Sink>(
    alloc: Global,
    file: &str,
    asked: Option<u16>,
    init_steps: u32,
    shelf: &mut S,
    out: &mut O,
    note: &mut N,
) -> Status
    requires some { 1 ≤ init_steps }
    requires stack { IfSome asked (λ bytes. (1 ≤ bytes) × (bytes ≤ 4096)) }
    ensures fetched { FetchedBy result (S.asked shelf.old) (S.asked shelf.new) (requests_of (Some (Build file.now asked init_steps))) }
    ensures read { result ≡ Status.ReadFault → Rose (S.faults shelf.old) (S.faults shelf.new) }
    ensures holds { BuildBy result (S.told shelf.old) file.now asked init_steps
        (change (O.told out.old) (O.told out.new) (O.faults out.old) (O.faults out.new))
        (change (N.told note.old) (N.told note.new) (N.faults note.old) (N.faults note.new)) }
    ensures later { N.faults note.old ≤ N.faults note.new }
{
    let text = match fetch_file(shelf, file, TEXT_LIMIT) {
        Ok(text) => text,
        Err(reason) => return status_without_file(reason),
    };
    match build(alloc, &text, asked, init_steps) {
        Err(why) => status_of_refusal(why),
        Ok(built) => match put_both(&built, out, note) {
            Ok(()) => Status::Done,
            Err(Failed) => Status::WriteFault,
        },
    }
}
