// The command `why`.
ghost use Rattle.std.specs.Prelude.{◌≡◌, ℕ, Some};
ghost use Rattle.vg_io.specs.Count.{Rose};
ghost use Rattle.vg_words.specs.Commands.{Why};
ghost use Rattle.vg_commands.specs.Commands.{requests_of};
ghost use Rattle.vg_commands.specs.Leaves.{FetchedBy, WhyBy, change};

use crate::answers::{status_of_refusal, status_without_file};
use std::alloc::Global;
use vg_base::TEXT_LIMIT;
use vg_fetch::fetch_file;
use vg_io::{Failed, Shelf, Sink};
use vg_status::Status;
use vg_why::why_lines;

/// Fetches the file of this name, and puts the lines that say why the member of the other name is live in its source text to `out`.
pub fn run_why<S: Shelf, O: Sink>(
    alloc: Global,
    file: &str,
    member: &str,
    shelf: &mut S,
    out: &mut O,
) -> Status
    ensures fetched { FetchedBy result (S.asked shelf.old) (S.asked shelf.new) (requests_of (Some (Why file.now member.now))) }
    ensures read { result ≡ Status.ReadFault → Rose (S.faults shelf.old) (S.faults shelf.new) }
    ensures holds { WhyBy result (S.told shelf.old) file.now member.now
        (change (O.told out.old) (O.told out.new) (O.faults out.old) (O.faults out.new)) }
{
    let text = match fetch_file(shelf, file, TEXT_LIMIT) {
        Ok(text) => text,
        Err(reason) => return status_without_file(reason),
    };
    match why_lines(alloc, &text, member) {
        Err(why) => status_of_refusal(why),
        Ok(lines) => match out.put(lines.as_slice()) {
            Ok(()) => Status::Done,
            Err(Failed) => Status::WriteFault,
        },
    }
}
