// The frames of methods, and what lies beside them.
ghost use Rattle.std.specs.Prelude.{ℕ, ◌≡◌, ◌+◌, ◌^◌, ◌<◌, ◌≤◌, IfOk, IfSome, IsSome, IsSomeAnd, IsTrue, List, Some, drop, length, replicate, take};
ghost use Rattle.std.specs.List.{AllByRecursion};
ghost use Rattle.vg_source.specs.Peak.{cost_of};
ghost use Rattle.vg_frame_costs.specs.Fitting.{IsMethodWithin, IsRoutineWithin, IsStartWithin};
ghost use Rattle.vg_frame_costs.specs.Noted.{AreAtLeast, HoldsAll, IsPaidBy, Pays};
ghost use Rattle.vg_frame_costs.specs.Payable.{CanBePaid, HasPaid, IsMethodPaid, IsRoutineShort, IsStartShort};

use crate::codes::{are_of_method, are_of_routine, are_of_start, begins_with_call};
use crate::counting::larger;
use crate::sizes::size_of;
use std::alloc::Global;
use vg_base::{NoMemory, Row};
use vg_lin::LinProc;

/// The frames of methods, by their numbers, in bytes of the stack; 0 for a method that has no procedure. So many bytes lie beside the frames of all methods
/// that are open at one time: below them those that the procedure takes with which a run begins, also where it idles, and above them what a routine takes.
#[derive(Drop)]
pub struct Frames {
    pub by_method: Row<u32>,
    pub beside: u32,
}

/// The frames of so many methods, where a run begins with the procedure of the number `start`.
///
/// There are none where one of the procedures before that is no method or one of a higher number, or idles, or calls that one; where one behind it is a method,
/// idles, or calls another; where that one takes more than four bytes, does not begin with a call by number, or calls one that is not before it; and where
/// bytes do not fit into 32 bits. But there are frames where costs can pay the procedures, and such costs pay for them.
pub fn method_frames(
    alloc: Global,
    procedures: &[LinProc],
    start: u16,
    methods: usize,
) -> Result<Option<Frames>, NoMemory>
    ensures within { IfOk result (λ frames. IfSome frames (HoldsAll procedures.now start)) }
    ensures paid { (costs : List ℕ) → length costs ≡ methods → CanBePaid procedures.now start costs → IfOk result (HasPaid costs) }
{
    let at = usize::from(start);
    if at >= procedures.len() {
        return Ok(None);
    }
    let below = match start_bytes(alloc, &procedures[at], start)? {
        Some(below) => below,
        None => return Ok(None),
    };
    let routines = match bytes_behind(alloc, procedures, start)? {
        Some(routines) => routines,
        None => return Ok(None),
    };
    let mut frames = no_frames(alloc, methods)?;
    if !note_before(alloc, procedures, start, &mut frames)? {
        return Ok(None);
    }
    Ok(frames_with(frames, below, routines))
}

// The frames of so many methods, before one is noted.
fn no_frames(alloc: Global, methods: usize) -> Result<Vec<u32>, NoMemory>
    ensures { IfOk result (λ frames. frames.items ≡ replicate methods 0) }
{
    Ok(Vec::from_elem(alloc, 0, methods)?)
}

// Frames with so many bytes below and above them.
fn frames_with(frames: Vec<u32>, below: u32, above: u32) -> Option<Frames>
    ensures frames { IfSome result (λ f. (f.by_method ≡ frames.items) × (f.beside ≡ below + above)) }
    ensures there { below + above < 2 ^ 32 → IsSome result }
{
    let beside = below.checked_add(above)?;
    Some(Frames {
        by_method: Row::from_vec(frames),
        beside,
    })
}

// What the procedure takes with which a run begins, with the four bytes of its idling: at most six.
fn start_bytes(alloc: Global, first: &LinProc, start: u16) -> Result<Option<u32>, NoMemory>
    ensures start { IfOk result (λ bytes. IfSome bytes (λ below. IsStartWithin start below first.now)) }
    ensures few { IfOk result (λ bytes. IfSome bytes (λ below. below ≤ 6)) }
    ensures there { IsStartShort start first.now → IfOk result (λ bytes. IsSome bytes) }
{
    if first.method().is_some()
        || !begins_with_call(first.code())
        || !are_of_start(first.code(), start)
    {
        return Ok(None);
    }
    match size_of(alloc, first)? {
        Some(bytes) => Ok(at_most_six(bytes.checked_add(4))),
        None => Ok(None),
    }
}

fn at_most_six(bytes: Option<u32>) -> Option<u32>
    ensures few { IfSome result (λ few. (bytes ≡ Some few) × (few ≤ 6)) }
    ensures there { IsSomeAnd bytes (λ few. few ≤ 6) → IsSome result }
{
    match bytes {
        Some(few) => { if few <= 6 { Some(few) } else { None } }
        None => None,
    }
}

// The most that one of the routines takes, which stand behind the procedure with which a run begins.
fn bytes_behind(alloc: Global, procedures: &[LinProc], start: u16) -> Result<Option<u32>, NoMemory>
    requires { start < length procedures.now }
    ensures within { IfOk result (λ bytes. IfSome bytes (λ above. AllByRecursion (IsRoutineWithin above) (drop (start + 1) procedures.now))) }
    ensures there { (above : ℕ) → above < 2 ^ 32 → AllByRecursion (IsRoutineShort above) (drop (start + 1) procedures.now)
        → IfOk result (λ bytes. IsSomeAnd bytes (λ b. b ≤ above)) }
{
    let behind = usize::from(start) + 1;
    routine_bytes(alloc, &procedures[behind..])
}

// The most that one of these routines takes.
fn routine_bytes(alloc: Global, routines: &[LinProc]) -> Result<Option<u32>, NoMemory>
    ensures within { IfOk result (λ bytes. IfSome bytes (λ above. AllByRecursion (IsRoutineWithin above) routines.now)) }
    ensures there { (above : ℕ) → above < 2 ^ 32 → AllByRecursion (IsRoutineShort above) routines.now
        → IfOk result (λ bytes. IsSomeAnd bytes (λ b. b ≤ above)) }
{
    let mut most = 0;
    for routine in routines {
        match bytes_of_routine(alloc, routine)? {
            Some(bytes) => most = larger(most, bytes),
            None => return Ok(None),
        }
    }
    Ok(Some(most))
}

fn bytes_of_routine(alloc: Global, routine: &LinProc) -> Result<Option<u32>, NoMemory>
    ensures within { IfOk result (λ bytes. IfSome bytes (λ above. IsRoutineWithin above routine.now)) }
    ensures there { (above : ℕ) → above < 2 ^ 32 → IsRoutineShort above routine.now → IfOk result (λ bytes. IsSomeAnd bytes (λ b. b ≤ above)) }
{
    if routine.method().is_some() || !are_of_routine(routine.code()) {
        return Ok(None);
    }
    size_of(alloc, routine)
}

// Notes what the methods take that stand before the procedure with which a run begins. It answers whether each of them has a place.
fn note_before(
    alloc: Global,
    procedures: &[LinProc],
    start: u16,
    frames: &mut Vec<u32>,
) -> Result<bool, NoMemory>
    requires { start < length procedures.now }
    ensures within { IfOk result (λ noted. IsTrue noted → AllByRecursion (IsMethodWithin start frames.new.items) (take start procedures.now)) }
    ensures paid { (above : ℕ) (costs : List ℕ) → Pays above costs frames.old.items
        → AllByRecursion (IsMethodPaid start above costs) (take start procedures.now)
        → IfOk result (λ noted. IsTrue noted × Pays above costs frames.new.items) }
{
    let end = usize::from(start);
    note_methods(alloc, &procedures[..end], start, frames)
}

// Notes what these methods take by their numbers.
fn note_methods(
    alloc: Global,
    methods: &[LinProc],
    start: u16,
    frames: &mut Vec<u32>,
) -> Result<bool, NoMemory>
    ensures within { IfOk result (λ noted. IsTrue noted → AllByRecursion (IsMethodWithin start frames.new.items) methods.now) }
    ensures paid { (above : ℕ) (costs : List ℕ) → Pays above costs frames.old.items → AllByRecursion (IsMethodPaid start above costs) methods.now
        → IfOk result (λ noted. IsTrue noted × Pays above costs frames.new.items) }
{
    for method in methods {
        if !note_method(alloc, method, start, frames)? {
            return Ok(false);
        }
    }
    Ok(true)
}

fn note_method(
    alloc: Global,
    procedure: &LinProc,
    start: u16,
    frames: &mut Vec<u32>,
) -> Result<bool, NoMemory>
    ensures grows { AreAtLeast frames.old.items frames.new.items }
    ensures within { IfOk result (λ noted. IsTrue noted → IsMethodWithin start frames.new.items procedure.now) }
    ensures paid { (above : ℕ) (costs : List ℕ) → Pays above costs frames.old.items → IsMethodPaid start above costs procedure.now
        → IfOk result (λ noted. IsTrue noted × Pays above costs frames.new.items) }
{
    match procedure.method() {
        Some(method) => {
            if !are_of_method(procedure.code(), start) {
                return Ok(false);
            }
            match size_of(alloc, procedure)? {
                Some(bytes) => Ok(note(frames, method, bytes)),
                None => Ok(false),
            }
        }
        None => Ok(false),
    }
}

// Notes that a method takes so many bytes, where it has a place.
#[tactic(auto, using(crate::proofs::Paid::noting))]
fn note(frames: &mut Vec<u32>, method: u16, bytes: u32) -> bool
    ensures grows { AreAtLeast frames.old.items frames.new.items }
    ensures noted { IsTrue result → bytes ≤ cost_of frames.new.items method }
    ensures paid { (above : ℕ) (costs : List ℕ) → Pays above costs frames.old.items → IsPaidBy above costs method bytes
        → IsTrue result × Pays above costs frames.new.items }
{
    let at = usize::from(method);
    if at >= frames.len() {
        return false;
    }
    if frames[at] < bytes {
        frames[at] = bytes;
    }
    true
}
