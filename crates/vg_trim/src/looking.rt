// Whether a guess stands for a procedure.
ghost use Rattle.std.specs.Prelude.{◌≡◌, ◌⊎◌, ◌<◌, ◌≤◌, ℕ, length, take, slice_get, IsTrue, Some};
ghost use Rattle.std.specs.List.{AllByRecursion};
ghost use Rattle.vg_lin.specs.Sound.{IsWidth};
ghost use Rattle.vg_trim_pairs.specs.Views.{both_in};
ghost use Rattle.vg_trim.specs.Looked.{HasLocals, IsInOrder, IsInFreeOrder, IsPlaceInOrder, IsPlaceFree, FlowsAlong, IsFree, IsStoodFor};
ghost use Rattle.vg_trim.specs.Looked.{IsLookedAt, IsLookedAtBy};

use crate::flow::{flows_as, flows_freely};
use crate::ranges::are_operands;
use vg_lin::{Instr, LinProc};
use vg_trim_pairs::{Both, begins_with, stands_at};
use vg_trim_plan::Plan;

/// Whether a guess stands for a procedure: each instruction of it is left out or stood for, at most 65,535 of them, and the parameters are the same.
pub fn trims(old: &LinProc, plan: &Plan) -> bool
    ensures { IsTrue result → IsLookedAt old.now plan.now.widths plan.now.code plan.now.facts plan.now.places }
{
    let both = Both {
        old: old.widths(),
        new: plan.widths.as_slice(),
        older: old.code(),
        newer: plan.code.as_slice(),
        facts: plan.facts.as_slice(),
        places: plan.places.as_slice(),
    };
    looks_right(old.params(), old.result_width(), both)
}

/// The same of the parts of a procedure: how many parameters it has, how wide its result is, and its locals and code before and after.
pub fn looks_right(params: u8, result_width: u8, both: Both<'_>) -> bool
    ensures { IsTrue result → IsLookedAtBy params result_width (both_in both.entry) }
{
    if !has_locals(params, both.old, both.new) {
        return false;
    }
    if !begins_with(params, both.facts) {
        return false;
    }
    if !begins_at(both.places) {
        return false;
    }
    if !all_stand(both) {
        return false;
    }
    is_in_order(both, result_width)
}

fn has_locals(params: u8, old: &[u8], new: &[u8]) -> bool
    ensures { IsTrue result → HasLocals params old.now new.now }
{
    new.len() <= 252
        && usize::from(params) <= new.len()
        && are_widths(new)
        && same_front(usize::from(params), new, old)
}

// Whether all are of one to four bytes.
fn are_widths(widths: &[u8]) -> bool
    ensures { IsTrue result → AllByRecursion IsWidth widths.now }
{
    match widths {
        [] => true,
        [width, more @ ..] => 1 <= *width && *width <= 4 && are_widths(more),
    }
}

// Whether the first ones are the same.
fn same_front(count: usize, first: &[u8], second: &[u8]) -> bool
    ensures { IsTrue result → take count first.now ≡ take count second.now }
{
    if count == 0 {
        return true;
    }
    match first {
        [] => second.is_empty(),
        [a, more @ ..] => match second {
            [] => false,
            [b, others @ ..] => *a == *b && same_front(count - 1, more, others),
        },
    }
}

// Whether the newer code begins at its first place.
fn begins_at(places: &[u16]) -> bool
    ensures { IsTrue result → slice_get places.now 0 ≡ Some 0 }
{
    match places.get(0) {
        Some(place) => *place == 0,
        None => false,
    }
}

// Whether each instruction of the older code is left out or stood for.
fn all_stand(both: Both<'_>) -> bool
    ensures { IsTrue result → (at : ℕ) → at < length both.entry.older.now → IsStoodFor (both_in both.entry) at }
{
    let count = both.older.len();
    if count > 65_535 {
        return false;
    }
    for at in 0..count as u16 {
        if !stands_at(both, at) {
            return false;
        }
    }
    true
}

// Whether the newer code has its operands in range and leads only where it may.
fn is_in_order(both: Both<'_>, result_width: u8) -> bool
    ensures { IsTrue result → IsFree result_width (both_in both.entry) ⊎ FlowsAlong result_width (both_in both.entry) }
{
    is_free(both, result_width) || flows_along(both, result_width)
}

// Whether nothing waits in the newer code, which is no longer than the older one.
fn is_free(both: Both<'_>, result_width: u8) -> bool
    ensures { IsTrue result → IsFree result_width (both_in both.entry) }
{
    0 < both.newer.len()
        && both.newer.len() <= both.older.len()
        && all_free(both.new, both.newer, result_width)
}

fn all_free(new: &[u8], newer: &[Instr], result_width: u8) -> bool
    ensures { IsTrue result → (at : ℕ) → at < length newer.now → IsPlaceFree new.now result_width newer.now at }
{
    let count = newer.len();
    if count > 65_535 {
        return false;
    }
    for at in 0..count as u16 {
        if !place_free(new, newer, result_width, at) {
            return false;
        }
    }
    true
}

fn place_free(new: &[u8], newer: &[Instr], result_width: u8, at: u16) -> bool
    ensures { IsTrue result → IsPlaceFree new.now result_width newer.now at }
{
    match newer.get(usize::from(at)) {
        Some(instr) => in_free_order(new, result_width, newer.len(), at, *instr),
        None => false,
    }
}

fn in_free_order(new: &[u8], result_width: u8, count: usize, at: u16, instr: Instr) -> bool
    ensures { IsTrue result → IsInFreeOrder new.now result_width count at instr }
{
    are_operands(new, result_width, instr) && flows_freely(count, at, instr)
}

// Whether the newer code flows as the older one, place by place.
fn flows_along(both: Both<'_>, result_width: u8) -> bool
    ensures { IsTrue result → FlowsAlong result_width (both_in both.entry) }
{
    both.newer.len() == both.older.len()
        && all_in_order(both.new, both.older, both.newer, result_width)
}

fn all_in_order(new: &[u8], older: &[Instr], newer: &[Instr], result_width: u8) -> bool
    ensures { IsTrue result → (at : ℕ) → at < length newer.now → IsPlaceInOrder new.now result_width older.now newer.now at }
{
    let count = newer.len();
    if count > 65_535 {
        return false;
    }
    for at in 0..count as u16 {
        if !place_in_order(new, older, newer, result_width, at) {
            return false;
        }
    }
    true
}

fn place_in_order(new: &[u8], older: &[Instr], newer: &[Instr], result_width: u8, at: u16) -> bool
    ensures { IsTrue result → IsPlaceInOrder new.now result_width older.now newer.now at }
{
    let place = usize::from(at);
    match (older.get(place), newer.get(place)) {
        (Some(i), Some(j)) => in_order(new, result_width, newer, at, *i, *j),
        _ => false,
    }
}

fn in_order(new: &[u8], result_width: u8, newer: &[Instr], at: u16, i: Instr, j: Instr) -> bool
    ensures { IsTrue result → IsInOrder new.now result_width newer.now at i j }
{
    are_operands(new, result_width, j) && flows_as(newer, at, i, j)
}
