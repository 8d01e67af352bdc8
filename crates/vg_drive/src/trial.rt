// The command `try`.
ghost use Rattle.std.specs.Prelude.{◌≡◌, ◌≤◌, ◌++◌, List, [], None, IfOk, OnOk, OnErr};
ghost use Rattle.vg_io.specs.Count.{Rose};
ghost use Rattle.vg_io.specs.Piece.{AppendsAll, AppendsFront};
ghost use Rattle.vg_io.specs.declared.asked.Asked.{Asked};
ghost use Rattle.avr_sim.specs.Run.{simulated};
ghost use Rattle.vg_faults.specs.Starting.{init_steps};
ghost use Rattle.vg_gen.specs.Generated.{generated};
ghost use Rattle.vg_build.specs.Answer.{Answers};
ghost use Rattle.vg_sim.specs.Shown.{lines_of};
ghost use Rattle.vg_commands.specs.Leaves.{FetchedBy, GainsAll, change};
ghost use Rattle.vg_drive.specs.Mirrors.{IsReady, TrialFails, TryBy, lines_in, run_in};
ghost use Rattle.vg_drive.specs.Trials.{try_steps};

use avr_isa::MachineEnd;
use avr_sim::Machine;
use std::alloc::Global;
use vg_base::{NoMemory, Refusal, Row};
use vg_build::{Built, build};
use vg_commands::{status_of_ending, status_of_refusal};
use vg_faults::{Fault, INIT_STEPS};
use vg_gen::{generate, summary_text};
use vg_io::{Failed, Sink};
use vg_script::Script;
use vg_sim::put_run;
use vg_status::Status;

// What is ready to be put, and what is ready to run.
#[derive(Drop)]
struct Trial {
    hex: Row<u8>,
    summary: Row<u8>,
    machine: Machine,
    script: Script,
}

/// Builds the generated text of so many objects, from 1 to 500 of them, puts the HEX text of its image to `note`, and then to `out` what is said of the text,
/// and the lines of the trace and of the ending of a machine with this image. No read and no interrupt comes to the machine.
pub fn run_try<O: Sink, N: Sink>(alloc: Global, objects: u32, out: &mut O, note: &mut N) -> Status
    requires some { 1 ≤ objects }
    requires few { objects ≤ 500 }
    ensures fetched { (asked : List Asked) → FetchedBy result asked asked [] }
    ensures read { result ≡ Status.ReadFault → ⊥ }
    ensures holds { TryBy result objects
        (change (O.told out.old) (O.told out.new) (O.faults out.old) (O.faults out.new))
        (change (N.told note.old) (N.told note.new) (N.faults note.old) (N.faults note.new)) }
    ensures later { N.faults note.old ≤ N.faults note.new }
{
    tried(alloc, objects, out, note)
}

// The same, of the sinks alone.
fn tried<O: Sink, N: Sink>(alloc: Global, objects: u32, out: &mut O, note: &mut N) -> Status
    requires some { 1 ≤ objects }
    requires few { objects ≤ 500 }
    ensures holds { TryBy result objects
        (change (O.told out.old) (O.told out.new) (O.faults out.old) (O.faults out.new))
        (change (N.told note.old) (N.told note.new) (N.faults note.old) (N.faults note.new)) }
    ensures later { N.faults note.old ≤ N.faults note.new }
{
    let built = match build_generated(alloc, objects) {
        Ok(built) => built,
        Err(why) => return status_of_refusal(why),
    };
    match ready(alloc, objects, built) {
        Err(NoMemory) => Status::NoMemory,
        Ok(trial) => match put_trial(trial, out, note) {
            Ok(end) => status_of_ending(end),
            Err(Failed) => Status::WriteFault,
        },
    }
}

// What is built of the generated text, with the defaults of `build`.
fn build_generated(alloc: Global, objects: u32) -> Result<Built, Refusal<Fault>>
    requires some { 1 ≤ objects }
    requires few { objects ≤ 500 }
    ensures { Answers (generated objects) None init_steps result }
{
    let text = match generate(alloc, objects) {
        Ok(text) => text,
        Err(NoMemory) => return Err(Refusal::NoMemory),
    };
    build(alloc, text.as_slice(), None, INIT_STEPS)
}

// What is ready of what was built: behind this, nothing takes memory.
fn ready(alloc: Global, objects: u32, built: Built) -> Result<Trial, NoMemory>
    ensures { IfOk result (IsReady objects built) }
{
    let summary = summary_text(
        alloc,
        objects,
        built.objects,
        built.methods,
        built.layout.static_bytes,
    )?;
    let machine = Machine::new(alloc, &built.image)?;
    Ok(Trial {
        hex: built.into_hex(),
        summary,
        machine,
        script: Script::from_lists(Vec::new(alloc), Vec::new(alloc)),
    })
}

// The HEX text goes to `note`, and then the summary and the lines of the run to `out`. The answer is how the machine has ended.
fn put_trial<O: Sink, N: Sink>(
    trial: Trial,
    out: &mut O,
    note: &mut N,
) -> Result<Option<MachineEnd>, Failed>
    ensures ended { IfOk result (λ end. end ≡ (run_in trial).ended) }
    ensures hex { OnOk result (GainsAll
        (change (N.told note.old) (N.told note.new) (N.faults note.old) (N.faults note.new)) trial.hex) }
    ensures lines { OnOk result (GainsAll
        (change (O.told out.old) (O.told out.new) (O.faults out.old) (O.faults out.new)) (lines_in trial)) }
    ensures fails { OnErr result (TrialFails trial
        (change (O.told out.old) (O.told out.new) (O.faults out.old) (O.faults out.new))
        (change (N.told note.old) (N.told note.new) (N.faults note.old) (N.faults note.new))) }
    ensures later { N.faults note.old ≤ N.faults note.new }
{
    let Trial {
        hex,
        summary,
        machine,
        script,
    } = trial;
    match note.put(hex.as_slice()) {
        Err(Failed) => Err(Failed),
        Ok(()) => put_lines(summary.as_slice(), machine, &script, out),
    }
}

// The summary goes to the sink, and then the lines of the run.
fn put_lines<O: Sink>(
    summary: &[u8],
    machine: Machine,
    script: &Script,
    out: &mut O,
) -> Result<Option<MachineEnd>, Failed>
    ensures ended { IfOk result (λ end. end ≡ (simulated machine script.now.reads script.now.interrupts try_steps).ended) }
    ensures lines { OnOk result (AppendsAll (O.told out.old) (O.told out.new)
        (summary.now ++ lines_of (simulated machine script.now.reads script.now.interrupts try_steps))) }
    ensures failed { OnErr result (AppendsFront (O.told out.old) (O.told out.new)
        (summary.now ++ lines_of (simulated machine script.now.reads script.now.interrupts try_steps))) }
    ensures cause { OnErr result (Rose (O.faults out.old) (O.faults out.new)) }
{
    match out.put(summary) {
        Err(Failed) => Err(Failed),
        Ok(()) => put_run(machine, script, most_steps(), out),
    }
}

// The instructions that a trial may take.
#[tactic(auto, unfolding(crate::specs::Trials::try_steps))]
fn most_steps() -> u32
    ensures { result ≡ try_steps }
{
    10_000_000
}
