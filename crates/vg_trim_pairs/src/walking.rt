// Walks through the older code.
ghost use Rattle.std.specs.Prelude.{◌≡◌, ℕ, Bool, true, slice_get, IfSome, IsTrue, Some};
ghost use Rattle.vg_trimming.specs.Walking.{zero_operand, checked_by, checked, decided, none_set, is_set, is_set_in, has_room, with_second, with_set};
ghost use Rattle.vg_trimming.specs.Walking.{twins_over, filled_over, worked_over, bounded_over, leads_over, leads_over_in, arrives, past, by_truth};
ghost use Rattle.vg_trimming.specs.Walking.{further, walks, way_leads};
ghost use Rattle.vg_trimming.specs.Facts.{is_it};
ghost use Rattle.vg_trim_pairs.specs.Views.{walk_in};

use crate::bounds::is_bounded;
use crate::homes::{is_filled, is_it, is_twin};
use crate::learning::is_told;
use crate::turns::{counts_at, instr_at};
use crate::worked::is_worked;
use vg_lin::{Comparison, Instr, Operand, Plain, Test};
use vg_trimming::{Bound, Facts, Learned, Met, Sets, Twin, Worked};

fn zero_operand(left: Operand, right: Operand) -> Option<u8>
    ensures { result ≡ zero_operand left right }
{
    match (left, right) {
        (Operand::Local(local), Operand::Known(v)) => { if v == 0 { Some(local) } else { None } }
        _ => None,
    }
}

/// The local that a test compares with 0.
pub fn checked(test: Test) -> Option<u8>
    ensures { result ≡ checked test }
{
    match test.comparison {
        Comparison::Same => zero_operand(test.left, test.right),
        _ => None,
    }
}

// How a test comes out that compares with 0 the local which got 0 or 1 last.
fn decided(met: Option<Met>, test: Test) -> Option<bool>
    ensures { result ≡ decided met test }
{
    match met {
        Some(known) => {
            if is_it(checked(test), known.local) && known.number < 2 {
                Some(known.number == 0)
            } else {
                None
            }
        }
        None => None,
    }
}

fn none_set() -> Sets
    ensures { result ≡ none_set }
{
    Sets {
        first: None,
        second: None,
    }
}

fn is_set(sets: Sets, local: u8) -> bool
    ensures { result ≡ is_set sets local }
{
    is_it(sets.first, local) || is_it(sets.second, local)
}

fn is_set_in(sets: Sets, value: Operand) -> bool
    ensures { result ≡ is_set_in sets value }
{
    match value {
        Operand::Local(local) => is_set(sets, local),
        Operand::Known(_) => false,
    }
}

// Whether there is room for one more.
fn has_room(sets: Sets, local: u8) -> bool
    ensures { IsTrue result → has_room sets local ≡ true }
{
    is_set(sets, local) || sets.first.is_none() || sets.second.is_none()
}

fn with_second(sets: Sets, local: u8, first: Option<u8>) -> Sets
    ensures { result ≡ with_second sets local first }
{
    match first {
        None => Sets {
            first: Some(local),
            second: sets.second,
        },
        Some(_) => Sets {
            first: sets.first,
            second: Some(local),
        },
    }
}

fn with_set(sets: Sets, local: u8) -> Sets
    ensures { result ≡ with_set sets local }
{
    if is_set(sets, local) {
        sets
    } else {
        with_second(sets, local, sets.first)
    }
}

fn twins_over(sets: Sets, before: &[Twin], behind: &[Twin]) -> bool
    ensures { IsTrue result → twins_over sets before.now behind.now ≡ true }
{
    match behind {
        [] => true,
        [twin, more @ ..] => {
            !is_set(sets, twin.local)
                && is_twin(before, twin.local, twin.home)
                && twins_over(sets, before, more)
        }
    }
}

fn filled_over(sets: Sets, sure: Option<u8>, before: &[u8], behind: &[u8]) -> bool
    ensures { IsTrue result → filled_over sets sure before.now behind.now ≡ true }
{
    match behind {
        [] => true,
        [local, more @ ..] => {
            !is_set(sets, *local)
                && (is_it(sure, *local) || is_filled(before, *local))
                && filled_over(sets, sure, before, more)
        }
    }
}

fn worked_over(sets: Sets, before: &[Worked], behind: &[Worked]) -> bool
    ensures { IsTrue result → worked_over sets before.now behind.now ≡ true }
{
    match behind {
        [] => true,
        [known, more @ ..] => {
            !is_set_in(sets, known.left)
                && !is_set_in(sets, known.right)
                && is_worked(before, *known)
                && worked_over(sets, before, more)
        }
    }
}

fn bounded_over(sets: Sets, told: Option<Bound>, before: &[Bound], behind: &[Bound]) -> bool
    ensures { IsTrue result → bounded_over sets told before.now behind.now ≡ true }
{
    match behind {
        [] => true,
        [bound, more @ ..] => {
            !is_set(sets, bound.local)
                && (is_told(told, *bound) || is_bounded(before, *bound))
                && bounded_over(sets, told, before, more)
        }
    }
}

// Whether what is known behind a walk was known before it or is learned, of other locals than those that got numbers.
fn leads_over(sets: Sets, sure: Learned, before: &Facts, behind: &Facts) -> bool
    ensures { IsTrue result → leads_over sets sure before.now behind.now ≡ true }
{
    behind.reached
        && twins_over(sets, before.twins.as_slice(), behind.twins.as_slice())
        && filled_over(
            sets,
            sure.filled,
            before.filled.as_slice(),
            behind.filled.as_slice(),
        )
        && worked_over(sets, before.worked.as_slice(), behind.worked.as_slice())
        && bounded_over(
            sets,
            sure.bound,
            before.bounds.as_slice(),
            behind.bounds.as_slice(),
        )
}

fn leads_over_in(sets: Sets, sure: Learned, before: &Facts, facts: &[Facts], at: u16) -> bool
    ensures { IsTrue result → leads_over_in sets sure before.now (slice_get facts.now at) ≡ true }
{
    match facts.get(usize::from(at)) {
        Some(behind) => leads_over(sets, sure, before, behind),
        None => false,
    }
}

/// The older code, with what is known at its places, and the places of the newer code.
#[derive(Clone, Copy)]
pub struct Ground<'a> {
    pub older: &'a [Instr],
    pub facts: &'a [Facts],
    pub places: &'a [u16],
}

/// Where a walk is, what it has met, and whether a step of it may no longer count.
#[derive(Clone, Copy)]
pub struct Walk {
    pub at: u16,
    pub spent: bool,
    pub sets: Sets,
    pub met: Option<Met>,
}

/// Whether the newer code is at a place where the older one is at that.
pub fn is_there(places: &[u16], to: u16, place: u16) -> bool
    ensures { IsTrue result → is_it (slice_get places.now to) place ≡ true }
{
    match places.get(usize::from(to)) {
        Some(one) => *one == place,
        None => false,
    }
}

fn arrives(ground: Ground<'_>, before: &Facts, sure: Learned, place: u16, walk: Walk) -> bool
    ensures { IsTrue result → arrives ground.entry.facts.now ground.entry.places.now before.now sure place (walk_in walk) ≡ true }
{
    is_there(ground.places, walk.at, place)
        && leads_over_in(walk.sets, sure, before, ground.facts, walk.at)
}

// The walk at this place, by a branch that counts or not.
fn past(counts: bool, walk: Walk, to: u16) -> Option<Walk>
    ensures { (go : _ → Bool) → IfSome result (λ k. go (walk_in k) ≡ true → past go counts (walk_in walk) to ≡ true) }
{
    if walk.spent && counts {
        return None;
    }
    Some(Walk {
        at: to,
        spent: walk.spent || counts,
        sets: walk.sets,
        met: walk.met,
    })
}

fn by_truth(counts: bool, walk: Walk, met: u16, unmet: u16, truth: Option<bool>) -> Option<Walk>
    ensures { (go : _ → Bool) → IfSome result (λ k. go (walk_in k) ≡ true → by_truth go counts (walk_in walk) met unmet truth ≡ true) }
{
    match truth {
        Some(true) => past(counts, walk, met),
        Some(false) => past(counts, walk, unmet),
        None => None,
    }
}

// The walk behind a step by this instruction, where a walk goes over that.
fn over(counts: bool, walk: Walk, instr: Instr) -> Option<Walk>
    ensures { (go : _ → Bool) → IfSome result (λ k. go (walk_in k) ≡ true → further go counts (walk_in walk) (Some instr) ≡ true) }
{
    if walk.at == 65_535 {
        return None;
    }
    let next = walk.at + 1;
    match instr {
        Instr::Plain(Plain::Copy(local, Operand::Known(number))) => {
            if has_room(walk.sets, local) {
                Some(Walk {
                    at: next,
                    spent: walk.spent,
                    sets: with_set(walk.sets, local),
                    met: Some(Met { local, number }),
                })
            } else {
                None
            }
        }
        Instr::Jump(to) => Some(Walk {
            at: to,
            spent: walk.spent,
            sets: walk.sets,
            met: walk.met,
        }),
        Instr::When(test, to) => by_truth(counts, walk, to, next, decided(walk.met, test)),
        Instr::Unless(test, to) => by_truth(counts, walk, next, to, decided(walk.met, test)),
        _ => None,
    }
}

// The walk one step further, where there is one.
fn further(counts: bool, walk: Walk, instr: Option<Instr>) -> Option<Walk>
    ensures { (go : _ → Bool) → IfSome result (λ k. go (walk_in k) ≡ true → further go counts (walk_in walk) instr ≡ true) }
{
    match instr {
        Some(one) => over(counts, walk, one),
        None => None,
    }
}

// Whether in at most so many steps the walk comes to where the newer code is at a place.
fn walks(
    ground: Ground<'_>,
    before: &Facts,
    sure: Learned,
    place: u16,
    most: u8,
    walk: Walk,
) -> bool
    ensures { IsTrue result
        → walks ground.entry.older.now ground.entry.facts.now ground.entry.places.now before.now sure place most (walk_in walk) ≡ true }
{
    if arrives(ground, before, sure, place, walk) {
        return true;
    }
    if most == 0 {
        return false;
    }
    let counts = counts_at(ground.older, walk.at);
    match further(counts, walk, instr_at(ground.older, walk.at)) {
        Some(next) => walks(ground, before, sure, place, most - 1, next),
        None => false,
    }
}

/// Whether a way to a place of the older code, behind a step that counts or may, leads to a place of the newer code.
pub fn way_leads(
    ground: Ground<'_>,
    before: &Facts,
    sure: Learned,
    spent: bool,
    to: u16,
    place: u16,
) -> bool
    ensures { IsTrue result
        → way_leads ground.entry.older.now ground.entry.facts.now ground.entry.places.now before.now sure spent to place ≡ true }
{
    let walk = Walk {
        at: to,
        spent,
        sets: none_set(),
        met: None,
    };
    walks(ground, before, sure, place, 24, walk)
}
