// The call graph of a packed program.
ghost use Rattle.std.specs.Prelude.{◌≡◌, ◌*◌, ◌<◌, ◌≤◌, ◌^◌, IfOk, length, map, sum};
ghost use Rattle.vg_source.specs.Peak.{cost_of};
ghost use Rattle.vg_call_need.specs.Graph.{calls_of, frames_of, graph_of, root};

use crate::entries::{below, entries_of};
use std::alloc::Global;
use vg_base::{NoMemory, Row};
use vg_bound::{CallGraph, Root};
use vg_firm::Procedure;
use vg_packed::FirmProgram;

/// The call graph of a packed program: a node for each procedure, with the frame of the method that it is, an edge to each procedure that it names, and main
/// and the handlers as roots, with so many bytes below them.
pub fn call_graph(
    alloc: Global,
    firm: &FirmProgram,
    frames: &[u32],
    extra: u32,
) -> Result<CallGraph, NoMemory>
    requires { length firm.now.procedures ≤ 65536 }
    ensures { IfOk result (λ graph. graph ≡ graph_of extra firm.now frames.now) }
{
    let all = firm.procedures.as_slice();
    let nodes = frames_of(alloc, all, frames)?;
    let calls = calls_of(alloc, all)?;
    let entries = entries_of(alloc, firm)?;
    let there = below(alloc, all.len(), entries.as_slice())?;
    let roots = roots_of(alloc, there.as_slice(), extra)?;
    CallGraph::of_parts(alloc, nodes, calls, roots)
}

// The frames of procedures: those of the methods that they are.
fn frames_of(alloc: Global, all: &[Procedure], frames: &[u32]) -> Result<Row<u32>, NoMemory>
    ensures is { IfOk result (λ row. row ≡ frames_of frames.now all.now) }
    ensures small { IfOk result (λ row. sum row ≤ 4294967295 * length row) }
{
    let mut row = Row::new(alloc);
    for procedure in all {
        row.push(frame_of(frames, procedure.method))?;
    }
    Ok(row)
}

/// What stands for a method among frames or costs; 0 for one that has none here.
#[tactic(auto, using(vg_frame_costs::proofs::Counted::cost_at, vg_frame_costs::proofs::Counted::cost_behind))]
pub fn frame_of(frames: &[u32], method: u16) -> u32
    ensures is { result ≡ cost_of frames.now method }
    ensures small { result ≤ 4294967295 }
{
    let index = usize::from(method);
    if index < frames.len() {
        frames[index]
    } else {
        0
    }
}

// What procedures call, of those that are there.
fn calls_of(alloc: Global, all: &[Procedure]) -> Result<Vec<Row<u16>>, NoMemory>
    ensures { IfOk result (λ rows. rows.items ≡ calls_of all.now) }
{
    let mut rows = Vec::new(alloc);
    for procedure in all {
        rows.push(below(alloc, all.len(), procedure.calls.as_slice())?)?;
    }
    Ok(rows)
}

// Roots at these nodes.
fn roots_of(alloc: Global, nodes: &[u16], extra: u32) -> Result<Row<Root>, NoMemory>
    ensures is { IfOk result (λ roots. roots ≡ map (root extra) nodes.now) }
    ensures small { extra < 2 ^ 32 }
{
    let mut roots = Row::new(alloc);
    for node in nodes {
        roots.push(Root { node: *node, extra })?;
    }
    Ok(roots)
}
