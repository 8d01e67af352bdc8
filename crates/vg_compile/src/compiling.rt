// From a typed program and its heap to an image.
ghost use Rattle.std.specs.Prelude.{ℕ, ◌≡◌, ◌≤◌, ◌<◌, List, length, IfErr, IfOk};
ghost use Rattle.vg_base.specs.Limits.{flash_bytes};
ghost use Rattle.vg_core.specs.HeldProgram.{program_at};
ghost use Rattle.vg_placement.specs.declared.column.Column.{Column};
ghost use Rattle.vg_packed.specs.declared.program.FirmProgram.{FirmProgram as TheFirm};
ghost use Rattle.vg_packed.specs.Given.{IsGiven};
ghost use Rattle.vg_packed.specs.Ready.{IsReady};
ghost use Rattle.vg_link.specs.Linking.{CanBeLinked, IsLinked};
ghost use Rattle.vg_compile.specs.Given.{NamesChip};
ghost use Rattle.vg_compile.specs.Unlinked.{AlwaysLinks};
ghost use Rattle.vg_call_need.specs.Bounds.{BoundsCalls};
ghost use Rattle.vg_compile.specs.Bounds.{DoesFor, HoldsBound};
ghost use Rattle.vg_layout.specs.Few.{IsFew};
ghost use Rattle.vg_compile.specs.Compile.{CallsNeedAsSaid, IsImageOf, IsRefusedFor, NeedsAsSaid};
ghost use Rattle.vg_compile.specs.Compile.{LacksFrames, LacksFramesOf, LacksHandlers, LacksHandlersOf, LacksLinear, LacksLinearOf, LacksRoom, LacksRoomOf};
ghost use Rattle.vg_compile.specs.Measured.{IsFullBy};
ghost use Rattle.vg_compile.specs.declared.ways.Way.TheVariants.{Plain};

use crate::compiled::{Compiled, Image};
use crate::measuring::measured_of;
use crate::no_image::NoImage;
use crate::pieces::pieces_of;
use crate::unlinking::unlinked;
use crate::ways::{Way, lesser, next_way};
use std::alloc::Global;
use vg_base::Refusal;
use vg_call_need::bound_of;
use vg_core::Program;
use vg_link::{Linked, Unlinked, link};
use vg_live::LiveSet;
use vg_number::Numbers;
use vg_pack::pack;
use vg_packed::FirmProgram;
use vg_place::Columns;
use vg_shape::Store;

/// The image of a typed program with the heap that its constructors left, of what is live, by its numbers and its columns: it is packed, made linear and
/// linked. The machine does in it what the program does from that heap, where the program is ready to be packed; or it reaches below the floor of its stack
/// first. Where calls do not go round, a stack of so many bytes as is said is enough for each run, so that it does not, and they are at most four more than
/// what the methods of some way of calls cost. Where they do, a cycle of them is said, and it reaches below the floor only where the active calls cost more
/// than the stack. Costs are by the numbers of methods.
///
/// Its linear program is made in up to three ways. Its procedures are trimmed and look up in place what dispatches have. Where that image takes too many words,
/// they look up by finders. And where that one takes too many words too, or frames of the one or the other are more than methods cost, or handlers receive
/// something, no procedure is trimmed, and they look up by finders: a program that is refused for such a cause is refused for it in this last way.
///
/// It refuses what has no linear code; what has a procedure whose frame is more than its method costs, and, where calls do not go round, needs more than four
/// bytes beyond what each way of calls costs; what, where they do not, needs more than a stack of so many bytes (then what is said to be needed is at most
/// four more than what the methods of some way of calls cost); what has a handler whose procedure receives something; and what takes more words than the
/// flash has: 65,535, since the last word stays free. What has no linear code has a cause of `make_linear` in what was packed of it, all of which is typed
/// where the code of its methods takes and leaves its values in order.
pub fn compile(
    alloc: Global,
    program: &Program,
    heap: &Store,
    live: &LiveSet,
    numbers: &Numbers,
    columns: &Columns,
    costs: &[u32],
    stack: u16,
) -> Result<Compiled, Refusal<NoImage>>
    requires given { IsGiven (program_at program.now) heap.now live.now numbers.now columns.now }
    requires ready { IsReady (program_at program.now) heap.now }
    requires chip { NamesChip (program_at program.now) }
    ensures does { IfOk result (λ compiled. IsReady (program_at program.now) heap.now
        → DoesFor compiled.linked columns.now costs.now (program_at program.now) heap.now compiled.bound) }
    ensures bound { IfOk result (λ compiled. IsReady (program_at program.now) heap.now
        → HoldsBound compiled.linked columns.now (program_at program.now) heap.now compiled.bound) }
    ensures calls { IfOk result (λ compiled. IsReady (program_at program.now) heap.now
        → BoundsCalls costs.now (program_at program.now) heap.now compiled.bound) }
    ensures few { IfOk result (λ compiled. IsFew stack compiled.bound) }
    ensures short { IfOk result (λ compiled. length compiled.linked.flash ≤ flash_bytes) }
    ensures refused { IsRefusedFor stack result }
    ensures deep { IfErr result (λ why. IsReady (program_at program.now) heap.now
        → CallsNeedAsSaid costs.now (program_at program.now) heap.now why) }
    ensures linear { IfErr result (LacksLinearOf (program_at program.now) heap.now live.now numbers.now columns.now) }
    ensures frames { IfErr result (LacksFramesOf (program_at program.now) heap.now live.now numbers.now columns.now costs.now) }
    ensures handlers { IfErr result (LacksHandlersOf (program_at program.now) heap.now live.now numbers.now columns.now) }
    ensures room { IfErr result (LacksRoomOf (program_at program.now) heap.now live.now numbers.now columns.now) }
{
    let firm = pack(alloc, program, heap, live, numbers, columns)?;
    match image_of(alloc, columns, &firm, costs, stack, Way::Trimmed) {
        Ok(image) => {
            let pieces = pieces_of(alloc, program, live, &image)?;
            let Image {
                unlinked: _,
                linked,
                bound,
            } = image;
            Ok(Compiled {
                linked,
                bound,
                pieces,
            })
        }
        Err(why) => Err(why),
    }
}

// The image of a packed program, made in this way; or in one behind it, where this way may be why there is none.
fn image_of(
    alloc: Global,
    columns: &Columns,
    firm: &FirmProgram,
    costs: &[u32],
    stack: u16,
    way: Way,
) -> Result<Image, Refusal<NoImage>>
    requires few { length firm.now.procedures ≤ 65536 }
    requires main { firm.now.main < length firm.now.procedures }
    requires links { AlwaysLinks columns.now firm.now }
    ensures image { IfOk result (λ image. IsImageOf columns.now firm.now costs.now image.linked image.bound) }
    ensures few { IfOk result (λ image. IsFew stack image.bound) }
    ensures short { IfOk result (λ image. length image.linked.flash ≤ flash_bytes) }
    ensures refused { IsRefusedFor stack result }
    ensures deep { IfErr result (NeedsAsSaid firm.now costs.now) }
    ensures linear { IfErr result (LacksLinear columns.now.list firm.now) }
    ensures frames { IfErr result (LacksFrames columns.now.list firm.now costs.now) }
    ensures handlers { IfErr result (LacksHandlers columns.now.list firm.now) }
    ensures room { IfErr result (LacksRoom columns.now firm.now) }
{
    match image_by(alloc, columns, firm, costs, stack, way) {
        Ok(image) => Ok(image),
        Err(why) => match next_way(way, &why) {
            Some(next) => match image_of(alloc, columns, firm, costs, stack, next) {
                Ok(image) => Ok(image),
                Err(last) => Err(lesser(why, last)),
            },
            None => Err(why),
        },
    }
}

// The image of a packed program, made in this way.
fn image_by(
    alloc: Global,
    columns: &Columns,
    firm: &FirmProgram,
    costs: &[u32],
    stack: u16,
    way: Way,
) -> Result<Image, Refusal<NoImage>>
    requires few { length firm.now.procedures ≤ 65536 }
    requires main { firm.now.main < length firm.now.procedures }
    requires links { AlwaysLinks columns.now firm.now }
    ensures image { IfOk result (λ image. IsImageOf columns.now firm.now costs.now image.linked image.bound) }
    ensures few { IfOk result (λ image. IsFew stack image.bound) }
    ensures short { IfOk result (λ image. length image.linked.flash ≤ flash_bytes) }
    ensures refused { IsRefusedFor stack result }
    ensures deep { IfErr result (NeedsAsSaid firm.now costs.now) }
    ensures linear { IfErr result (LacksLinear columns.now.list firm.now) }
    ensures frames { way ≡ Plain → IfErr result (LacksFrames columns.now.list firm.now costs.now) }
    ensures handlers { way ≡ Plain → IfErr result (LacksHandlers columns.now.list firm.now) }
    ensures room { way ≡ Plain → IfErr result (LacksRoom columns.now firm.now) }
{
    let measured = match measured_of(alloc, columns, firm, costs, stack, way) {
        Ok(measured) => measured,
        Err(why) => return Err(why),
    };
    let bound = bound_of(alloc, firm, &measured.need, stack)?;
    let unlinked = unlinked(alloc, columns, firm, measured.linear)?;
    match linked_of(alloc, &unlinked, stack) {
        Ok(linked) => Ok(Image {
            unlinked,
            linked,
            bound,
        }),
        Err(why) => Err(why),
    }
}

// The linked program.
fn linked_of(alloc: Global, unlinked: &Unlinked, stack: u16) -> Result<Linked, Refusal<NoImage>>
    requires { CanBeLinked unlinked.now }
    ensures linked { IfOk result (IsLinked unlinked.now) }
    ensures short { IfOk result (λ linked. length linked.flash ≤ flash_bytes) }
    ensures refused { IsRefusedFor stack result }
    ensures deep { (f : TheFirm) (costs : List ℕ) → IfErr result (NeedsAsSaid f costs) }
    ensures linear { (cs : List Column) (f : TheFirm) → IfErr result (LacksLinear cs f) }
    ensures frames { (cs : List Column) (f : TheFirm) (costs : List ℕ) → IfErr result (LacksFrames cs f costs) }
    ensures handlers { (cs : List Column) (f : TheFirm) → IfErr result (LacksHandlers cs f) }
    ensures full { IfErr result (IsFullBy unlinked.now) }
{
    match link(alloc, unlinked) {
        Ok(linked) => Ok(linked),
        Err(Refusal::Fault(full)) => Err(Refusal::Fault(NoImage::Full(full))),
        Err(Refusal::NoMemory) => Err(Refusal::NoMemory),
    }
}
