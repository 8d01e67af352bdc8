// The linear program of a packed one, with what its procedures and their calls take of the stack.
ghost use Rattle.std.specs.Prelude.{◌≡◌, ◌≤◌, ◌<◌, List, length, IfErr, IfOk, IfSome, IsTrue};
ghost use Rattle.vg_place.specs.declared.placing.Columns.{Columns as TheColumns};
ghost use Rattle.vg_placement.specs.declared.column.Column.{Column};
ghost use Rattle.vg_packed.specs.declared.program.FirmProgram.{FirmProgram as TheFirm};
ghost use Rattle.vg_frame_costs.specs.Payable.{CanBePaid};
ghost use Rattle.vg_linear.specs.Refusals.{IsRefused};
ghost use Rattle.vg_linear.specs.Whole.{IsLinear, IsPlain};
ghost use Rattle.vg_call_need.specs.Bounds.{IsFewOf};
ghost use Rattle.vg_call_need.specs.Need.{IsNeed};
ghost use Rattle.vg_call_need.specs.Within.{IsNeedWithin, IsSpentBy};
ghost use Rattle.vg_compile.specs.declared.ways.Way.TheVariants.{Plain};
ghost use Rattle.vg_compile.specs.Bounds.{AreFramesOf, ArePaidFor};
ghost use Rattle.vg_compile.specs.Compile.{IsRefusedFor, LacksFrames, LacksHandlers, LacksLinear, LacksRoom, NeedsAsSaid};
ghost use Rattle.vg_compile.specs.Measured.{AreAllPaid, AreUnpaidAt, AreUnpaidFor, IsLinearOf, IsMainFramed, IsMeasured, IsMeasuredOf};
ghost use Rattle.vg_compile.specs.Measured.{IsUnhandledFor, IsUnpaidFor};

use crate::handlers::all_can_handle;
use crate::no_image::NoImage;
use crate::ways::Way;
use std::alloc::Global;
use vg_base::{NoMemory, Refusal};
use vg_call_need::{Need, is_spent, stack_need};
use vg_flatten_shapes::Fault;
use vg_frame_costs::{Frames, are_paid, method_frames};
use vg_linear::{Linear, make_linear, make_plain, make_shared};
use vg_packed::FirmProgram;
use vg_place::Columns;

/// A linear program whose handlers receive nothing, with the frames of its methods and what its calls need, for which methods pay.
#[derive(Drop)]
pub struct Measured {
    pub linear: Linear,
    pub frames: Frames,
    pub need: Need,
}

/// The linear program of a packed one that is made in this way, with what is measured of it.
pub fn measured_of(
    alloc: Global,
    columns: &Columns,
    firm: &FirmProgram,
    costs: &[u32],
    stack: u16,
    way: Way,
) -> Result<Measured, Refusal<NoImage>>
    requires procedures { length firm.now.procedures ≤ 65536 }
    requires main { firm.now.main < length firm.now.procedures }
    ensures measured { IfOk result (IsMeasured columns.now.list firm.now costs.now) }
    ensures plain { way ≡ Plain → IfOk result (λ measured. IsPlain columns.now.list firm.now measured.linear) }
    ensures few { IfOk result (λ measured. IsFewOf stack measured.need) }
    ensures refused { IsRefusedFor stack result }
    ensures deep { IfErr result (NeedsAsSaid firm.now costs.now) }
    ensures linear { IfErr result (LacksLinear columns.now.list firm.now) }
    ensures frames { way ≡ Plain → IfErr result (LacksFrames columns.now.list firm.now costs.now) }
    ensures handlers { way ≡ Plain → IfErr result (LacksHandlers columns.now.list firm.now) }
    ensures room { IfErr result (LacksRoom columns.now firm.now) }
{
    let linear = match linear_of(alloc, columns, firm, costs, stack, way) {
        Ok(linear) => linear,
        Err(why) => return Err(why),
    };
    match measure(alloc, firm, linear, costs, stack) {
        Ok(measured) => Ok(measured),
        Err(why) => Err(why),
    }
}

// The linear program.
fn linear_of(
    alloc: Global,
    columns: &Columns,
    firm: &FirmProgram,
    costs: &[u32],
    stack: u16,
    way: Way,
) -> Result<Linear, Refusal<NoImage>>
    requires { firm.now.main < length firm.now.procedures }
    ensures linear { IfOk result (IsLinear columns.now.list firm.now) }
    ensures plain { way ≡ Plain → IfOk result (IsPlain columns.now.list firm.now) }
    ensures refused { IsRefusedFor stack result }
    ensures deep { IfErr result (NeedsAsSaid firm.now costs.now) }
    ensures lacks { IfErr result (LacksLinear columns.now.list firm.now) }
    ensures frames { IfErr result (LacksFrames columns.now.list firm.now costs.now) }
    ensures handlers { IfErr result (LacksHandlers columns.now.list firm.now) }
    ensures room { IfErr result (LacksRoom columns.now firm.now) }
{
    match made_by(alloc, columns, firm, way) {
        Ok(linear) => Ok(linear),
        Err(Refusal::Fault(fault)) => Err(Refusal::Fault(NoImage::NotLinear(fault))),
        Err(Refusal::NoMemory) => Err(Refusal::NoMemory),
    }
}

// It, or the cause for which it is not made.
fn made_by(
    alloc: Global,
    columns: &Columns,
    firm: &FirmProgram,
    way: Way,
) -> Result<Linear, Refusal<Fault>>
    requires { firm.now.main < length firm.now.procedures }
    ensures linear { IfOk result (IsLinear columns.now.list firm.now) }
    ensures plain { way ≡ Plain → IfOk result (IsPlain columns.now.list firm.now) }
    ensures refusal { IsRefused result columns.now.list firm.now }
{
    let list = columns.list.as_slice();
    match way {
        Way::Trimmed => make_linear(alloc, list, firm),
        Way::Shared => make_shared(alloc, list, firm),
        Way::Plain => make_plain(alloc, list, firm),
    }
}

// A linear program, with its frames and what its calls need, where methods pay for that and its handlers receive nothing.
fn measure(
    alloc: Global,
    firm: &FirmProgram,
    linear: Linear,
    costs: &[u32],
    stack: u16,
) -> Result<Measured, Refusal<NoImage>>
    requires procedures { length firm.now.procedures ≤ 65536 }
    requires main { firm.now.main < length firm.now.procedures }
    requires linear { IsLinearOf firm.now linear }
    ensures measured { IfOk result (IsMeasuredOf firm.now costs.now linear) }
    ensures same { IfOk result (λ measured. measured.linear ≡ linear) }
    ensures few { IfOk result (λ measured. IsFewOf stack measured.need) }
    ensures refused { IsRefusedFor stack result }
    ensures deep { IfErr result (NeedsAsSaid firm.now costs.now) }
    ensures linear { (cs : List Column) (f : TheFirm) → IfErr result (LacksLinear cs f) }
    ensures room { (c : TheColumns) (f : TheFirm) → IfErr result (LacksRoom c f) }
    ensures frames { IfErr result (IsUnpaidFor linear costs.now) }
    ensures handlers { IfErr result (IsUnhandledFor linear firm.now) }
{
    let frames = match frames_of(alloc, firm, &linear, costs, stack) {
        Ok(frames) => frames,
        Err(why) => return Err(why),
    };
    let need = match need_of(alloc, firm, &frames, costs, stack) {
        Ok(need) => need,
        Err(why) => return Err(why),
    };
    let can = all_can_handle(
        alloc,
        linear.procedures.as_slice(),
        firm.handlers.as_slice(),
    )?;
    if !can {
        return Err(Refusal::Fault(NoImage::Received));
    }
    Ok(Measured {
        linear,
        frames,
        need,
    })
}

// The frames of the methods of a linear program, for as many as have costs.
fn frames_of(
    alloc: Global,
    firm: &FirmProgram,
    linear: &Linear,
    costs: &[u32],
    stack: u16,
) -> Result<Frames, Refusal<NoImage>>
    ensures frames { IfOk result (AreFramesOf linear.now) }
    ensures paid { IfOk result (λ frames. CanBePaid linear.now.procedures linear.now.start costs.now → AreAllPaid frames costs.now) }
    ensures refused { IsRefusedFor stack result }
    ensures deep { IfErr result (NeedsAsSaid firm.now costs.now) }
    ensures linear { (cs : List Column) (f : TheFirm) → IfErr result (LacksLinear cs f) }
    ensures room { (c : TheColumns) (f : TheFirm) → IfErr result (LacksRoom c f) }
    ensures unpaid { IfErr result (IsUnpaidFor linear.now costs.now) }
    ensures handlers { IfErr result (IsUnhandledFor linear.now firm.now) }
{
    let procedures = linear.procedures.as_slice();
    match method_frames(alloc, procedures, linear.start, costs.len())? {
        Some(frames) => Ok(frames),
        None => Err(Refusal::Fault(NoImage::Costly)),
    }
}

// What the calls of a packed program need of the stack, by the frames of its methods and what lies beside them, where that is no more than it has.
fn need_of(
    alloc: Global,
    firm: &FirmProgram,
    frames: &Frames,
    costs: &[u32],
    stack: u16,
) -> Result<Need, Refusal<NoImage>>
    requires procedures { length firm.now.procedures ≤ 65536 }
    requires main { firm.now.main < length firm.now.procedures }
    requires framed { IsMainFramed firm.now frames.now }
    requires beside { 4 ≤ frames.now.beside }
    ensures need { IfOk result (IsNeedWithin frames.now.beside firm.now frames.now.by_method costs.now) }
    ensures paid { IfOk result (ArePaidFor frames.now costs.now) }
    ensures few { IfOk result (IsFewOf stack) }
    ensures refused { IsRefusedFor stack result }
    ensures deep { IfErr result (NeedsAsSaid firm.now costs.now) }
    ensures linear { (cs : List Column) (f : TheFirm) → IfErr result (LacksLinear cs f) }
    ensures room { (c : TheColumns) (f : TheFirm) → IfErr result (LacksRoom c f) }
    ensures unpaid { IfErr result (AreUnpaidFor frames.now costs.now) }
    ensures handlers { (l : _) (f : TheFirm) → IfErr result (IsUnhandledFor l f) }
{
    match need_by(alloc, firm, frames, costs)? {
        Some(Need::Bytes(bytes)) => {
            if bytes > u64::from(stack) {
                return Err(Refusal::Fault(NoImage::Deep {
                    need: bytes.min(u64::from(u32::MAX)) as u32,
                }));
            }
            Ok(Need::Bytes(bytes))
        }
        Some(Need::Cycle(cycle)) => Ok(Need::Cycle(cycle)),
        None => Err(Refusal::Fault(NoImage::Costly)),
    }
}

// What they need by these frames, where the costs of methods pay for that.
fn need_by(
    alloc: Global,
    firm: &FirmProgram,
    frames: &Frames,
    costs: &[u32],
) -> Result<Option<Need>, NoMemory>
    requires procedures { length firm.now.procedures ≤ 65536 }
    requires main { firm.now.main < length firm.now.procedures }
    requires framed { IsMainFramed firm.now frames.now }
    requires beside { 4 ≤ frames.now.beside }
    ensures within { IfOk result (λ need. IfSome need (IsNeedWithin frames.now.beside firm.now frames.now.by_method costs.now)) }
    ensures paid { IfOk result (λ need. IfSome need (ArePaidFor frames.now costs.now)) }
    ensures unpaid { IfOk result (AreUnpaidAt frames.now costs.now) }
{
    let need = stack_need(alloc, firm, frames.by_method.as_slice(), frames.beside)?;
    let paid = is_paid(alloc, firm, frames, costs, &need)?;
    if paid { Ok(Some(need)) } else { Ok(None) }
}

// Whether the costs pay for all frames, with what lies beside them; or, where calls do not go round, the calls of some way cost as much as is needed, but for
// four bytes.
fn is_paid(
    alloc: Global,
    firm: &FirmProgram,
    frames: &Frames,
    costs: &[u32],
    need: &Need,
) -> Result<bool, NoMemory>
    requires procedures { length firm.now.procedures ≤ 65536 }
    requires main { firm.now.main < length firm.now.procedures }
    requires framed { IsMainFramed firm.now frames.now }
    requires beside { 4 ≤ frames.now.beside }
    requires need { IsNeed frames.now.beside firm.now frames.now.by_method need.now }
    ensures spent { IfOk result (λ paid. IsTrue paid → IsSpentBy firm.now costs.now need.now) }
    ensures paid { IfOk result (λ paid. IsTrue paid → ArePaidFor frames.now costs.now need.now) }
    ensures all { IfOk result (λ paid. AreAllPaid frames.now costs.now → IsTrue paid) }
{
    if are_paid(frames.beside, 4, frames.by_method.as_slice(), costs) {
        return Ok(true);
    }
    match need {
        Need::Bytes(bytes) => is_spent(alloc, firm, costs, *bytes),
        Need::Cycle(_) => Ok(false),
    }
}
