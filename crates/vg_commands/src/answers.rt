// The status that tells of the answer of a command.
ghost use Rattle.std.specs.Prelude.{◌≡◌};
ghost use Rattle.vg_commands.specs.Endings.{status_of_end, status_of_ending, status_of_played, status_of_refusal, status_of_simulated, status_without_file};
ghost use Rattle.vg_run.specs.Shown.{ending_in};

use avr_isa::MachineEnd;
use vg_base::Refusal;
use vg_faults::Fault;
use vg_fetch::NoFile;
use vg_run::{Played, RunEnd};
use vg_sim::Simulated;
use vg_status::Status;

/// The status where a file is missing.
pub fn status_without_file(reason: NoFile) -> Status
    ensures { result ≡ status_without_file reason }
{
    match reason {
        NoFile::Failed => Status::ReadFault,
        NoFile::Wanting => Status::NoMemory,
        NoFile::Long => Status::TooLong,
    }
}

/// The status where nothing was built.
pub fn status_of_refusal(why: Refusal<Fault>) -> Status
    ensures { result ≡ status_of_refusal why }
{
    match why {
        Refusal::Fault(fault) => Status::Refused(fault),
        Refusal::NoMemory => Status::NoMemory,
    }
}

/// The status of a session.
pub fn status_of_played(played: Played) -> Status
    ensures { result ≡ status_of_played played }
{
    match played {
        Played::Ended(end) => status_of_end(end),
        Played::WriteFault => Status::WriteFault,
        Played::Refused(fault) => Status::Refused(fault),
        Played::ScriptRefused(line) => Status::ScriptRefused(line),
        Played::NoMemory => Status::NoMemory,
    }
}

// The status of the ending of a session.
fn status_of_end(end: RunEnd) -> Status
    ensures { result ≡ status_of_end (ending_in end) }
{
    match end {
        RunEnd::Idle => Status::Done,
        RunEnd::Stop(code) => Status::Stopped(code),
        RunEnd::Wants(address) => Status::Wants(address),
        RunEnd::Budget => Status::Budget,
        RunEnd::Depth => Status::Depth,
    }
}

/// The status of a simulation.
pub fn status_of_simulated(simulated: Simulated) -> Status
    ensures { result ≡ status_of_simulated simulated }
{
    match simulated {
        Simulated::Ended(end) => status_of_ending(end),
        Simulated::WriteFault => Status::WriteFault,
        Simulated::HexRefused(fault) => Status::HexRefused(fault),
        Simulated::ScriptRefused(line) => Status::ScriptRefused(line),
        Simulated::NoMemory => Status::NoMemory,
    }
}

/// The status of the ending of a machine, or of a run that has not ended.
pub fn status_of_ending(end: Option<MachineEnd>) -> Status
    ensures { result ≡ status_of_ending end }
{
    match end {
        None => Status::Budget,
        Some(MachineEnd::Idle) => Status::Done,
        Some(MachineEnd::Stop(code)) => Status::Stopped(code),
        Some(MachineEnd::Wants(address)) => Status::Wants(address),
        Some(MachineEnd::Bad { pc, word }) => Status::BadInstruction { pc, word },
    }
}
