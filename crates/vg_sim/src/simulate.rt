// One simulation.
ghost use Rattle.std.specs.Prelude.{◌≡◌, ◌≤◌, ℕ, List, length, Option, Some, None, IfOk, OnOk, OnErr};
ghost use Rattle.vg_base.specs.Limits.{image_text_limit};
ghost use Rattle.vg_io.specs.Count.{Rose};
ghost use Rattle.vg_io.specs.Piece.{AppendsAll, AppendsFront};
ghost use Rattle.vg_hex.specs.HexImage.{fault_in};
ghost use Rattle.vg_script.specs.Script.{first_bad};
ghost use Rattle.avr_isa.specs.declared.ending.MachineEnd.{MachineEnd};
ghost use Rattle.avr_sim.specs.Run.{simulated};
ghost use Rattle.vg_sim.specs.Refusal.{IsRefusal};
ghost use Rattle.vg_sim.specs.Shown.{ForRun, end_line, lines_of};

use avr_isa::MachineEnd;
use avr_sim::Machine;
use std::alloc::Global;
use vg_hex::{HexFault, HexRefusal, read};
use vg_io::{Failed, Sink};
use vg_script::{EndLine, Script, ScriptFault, put_ending, read_script};

/// How a simulation ends.
#[derive(Clone, Copy, Debug, PartialEq, Eq)]
pub enum Simulated {
    /// The run has ended so, or with `None` its budget is spent, and all lines were put.
    Ended(Option<MachineEnd>),
    /// A put failed. A front of the lines was put.
    WriteFault,
    /// The HEX text has this fault, its first. Nothing was put.
    HexRefused(HexFault),
    /// The line of this number is the script's first bad one. Nothing was put.
    ScriptRefused(u32),
    /// Want of memory. Nothing was put.
    NoMemory,
}

/// Runs the image of a HEX text on a script for at most so many instructions, and puts the lines of its trace and of its ending.
///
/// Both texts have at most 1,048,576 bytes. A fault of the HEX text comes before one of the script. From the first
/// instruction on it takes no memory.
pub fn simulate_text<O: Sink>(
    alloc: Global,
    hex: &[u8],
    script: &[u8],
    budget: u32,
    out: &mut O,
) -> Simulated
    requires hex { length hex.now ≤ image_text_limit }
    requires script { length script.now ≤ image_text_limit }
    ensures ended { (end : Option MachineEnd) → result ≡ Simulated.Ended end
        → ForRun hex.now script.now budget (λ m. (end ≡ m.ended) × AppendsAll (O.told out.old) (O.told out.new) (lines_of m)) }
    ensures write_fault { result ≡ Simulated.WriteFault → ForRun hex.now script.now budget (λ m. AppendsFront (O.told out.old) (O.told out.new) (lines_of m)) }
    ensures cause { result ≡ Simulated.WriteFault → Rose (O.faults out.old) (O.faults out.new) }
    ensures hex_refused { (fault : HexFault) → result ≡ Simulated.HexRefused fault → fault_in hex.now ≡ Some fault }
    ensures script_refused { (line : ℕ) → result ≡ Simulated.ScriptRefused line → (fault_in hex.now ≡ None) × (first_bad script.now ≡ Some line) }
    ensures nothing { IsRefusal result → O.told out.new ≡ O.told out.old }
    ensures later { O.faults out.old ≤ O.faults out.new }
{
    let image = match read(alloc, hex) {
        Ok(image) => image,
        Err(HexRefusal::Fault(fault)) => return Simulated::HexRefused(fault),
        Err(HexRefusal::NoMemory) => return Simulated::NoMemory,
    };
    let script = match read_script(alloc, script) {
        Ok(script) => script,
        Err(ScriptFault::Form(line)) => return Simulated::ScriptRefused(line),
        Err(ScriptFault::NoMemory) => return Simulated::NoMemory,
    };
    match Machine::new(alloc, &image) {
        Err(_) => Simulated::NoMemory,
        Ok(machine) => match put_run(machine, &script, budget, out) {
            Ok(end) => Simulated::Ended(end),
            Err(_) => Simulated::WriteFault,
        },
    }
}

/// Runs a machine at reset on a script for at most so many instructions, and puts the lines of its trace and of its ending. It takes no memory.
///
/// The answer is how the machine has ended, and `None` where its budget is spent. `Failed` is a put that failed: a front of the lines was put.
pub fn put_run<O: Sink>(
    started: Machine,
    script: &Script,
    budget: u32,
    out: &mut O,
) -> Result<Option<MachineEnd>, Failed>
    ensures ended { IfOk result (λ end. end ≡ (simulated started script.now.reads script.now.interrupts budget).ended) }
    ensures lines { OnOk result (AppendsAll (O.told out.old) (O.told out.new) (lines_of (simulated started script.now.reads script.now.interrupts budget))) }
    ensures failed { OnErr result (AppendsFront (O.told out.old) (O.told out.new)
        (lines_of (simulated started script.now.reads script.now.interrupts budget))) }
    ensures cause { OnErr result (Rose (O.faults out.old) (O.faults out.new)) }
    ensures later { O.faults out.old ≤ O.faults out.new }
{
    let end = started.run(script, budget, out)?;
    put_ending(end_line(end), out)?;
    Ok(end)
}

// The ending that is put for a run; one that has not ended has spent its budget.
fn end_line(end: Option<MachineEnd>) -> EndLine
    ensures { result ≡ end_line end }
{
    match end {
        None => EndLine::Budget,
        Some(MachineEnd::Idle) => EndLine::Idle,
        Some(MachineEnd::Stop(code)) => EndLine::Stop(code),
        Some(MachineEnd::Wants(address)) => EndLine::Wants(address),
        Some(MachineEnd::Bad { pc, word }) => EndLine::Bad { pc, word },
    }
}
