// What stands for the instruction at a place of the older code.
ghost use Rattle.std.specs.Prelude.{◌≡◌, ℕ, true, suc, slice_get, IsTrue, None, Some};
ghost use Rattle.vg_lin.specs.Turns.{counts_at};
ghost use Rattle.vg_trimming.specs.Walking.{learned_met, learned_unmet};
ghost use Rattle.vg_trimming.specs.Trimming.{gives_same, stops_so, is_there, leads_on, passed_over, instr_stands, stands_by, place_stands, stands_at};
ghost use Rattle.vg_trimming.specs.Trimming.{same_test};
ghost use Rattle.vg_trim_pairs.specs.Views.{both_in};

use crate::both::Both;
use crate::branches::{always_holds, never_holds, no_change, same_test};
use crate::calls::{call_change, same_call};
use crate::homes::stands_for;
use crate::lasting::leads_at;
use crate::learning::{learned_met, learned_unmet, none_learned};
use crate::plains::{is_stop, plain_passed, plain_stands, shorter_stands, work_passed};
use crate::turns::{counts_at, instr_at};
use crate::walking::{Ground, is_there, way_leads};
use vg_lin::{Call, Instr, Operand, Plain, Test};
use vg_trimming::{Facts, Learned, Twin};

// Whether this instruction gives the same back, in so many bytes.
fn gives_same(twins: &[Twin], width: u8, value: Operand, instr: Option<Instr>) -> bool
    ensures { IsTrue result → gives_same twins.now width value instr ≡ true }
{
    match instr {
        Some(Instr::Return(v, other)) => width == v && stands_for(twins, value, other),
        _ => false,
    }
}

// Whether this instruction stops as the older one does.
fn stops_so(plain: Plain, instr: Option<Instr>) -> bool
    ensures { IsTrue result → stops_so plain instr ≡ true }
{
    match (plain, instr) {
        (Plain::Stop(c), Some(Instr::Plain(Plain::Stop(d)))) => c == d,
        _ => false,
    }
}

// Whether a way behind a step of the older code leads to a place of the newer code.
fn leads_on(both: Both<'_>, before: &Facts, sure: Learned, spent: bool, to: u16, place: u16) -> bool
    ensures { IsTrue result → leads_on (both_in both.entry) before.now sure spent to place ≡ true }
{
    let ground = Ground {
        older: both.older,
        facts: both.facts,
        places: both.places,
    };
    way_leads(ground, before, sure, spent, to, place)
}

// Whether the newer code stays at its place where the older one makes this plain step.
fn is_plain_passed(both: Both<'_>, before: &Facts, at: u16, place: u16, plain: Plain) -> bool
    ensures { IsTrue result → passed_over (both_in both.entry) before.now at place (Instr.Plain plain) ≡ true }
{
    if at == 65_535 || !is_there(both.places, at + 1, place) {
        return false;
    }
    if plain_passed(both.old, both.new, both.facts, before, at, plain) {
        return true;
    }
    match plain {
        Plain::Compute(c) => work_passed(both.old, both.new, both.facts, before, at, c),
        _ => false,
    }
}

// Whether this branch, which does not count, comes out in one way that leads to the newer code's place.
fn when_passed(both: Both<'_>, before: &Facts, at: u16, place: u16, test: Test, to: u16) -> bool
    ensures { IsTrue result → passed_over (both_in both.entry) before.now at place (Instr.When test to) ≡ true }
{
    if at == 65_535 || counts_at(both.older, at) {
        return false;
    }
    never_holds(both.old, before, test)
        && leads_on(both, before, none_learned(), true, at + 1, place)
        || always_holds(both.old, before, test)
            && leads_on(both, before, none_learned(), true, to, place)
}

fn unless_passed(both: Both<'_>, before: &Facts, at: u16, place: u16, test: Test, to: u16) -> bool
    ensures { IsTrue result → passed_over (both_in both.entry) before.now at place (Instr.Unless test to) ≡ true }
{
    if at == 65_535 || counts_at(both.older, at) {
        return false;
    }
    never_holds(both.old, before, test) && leads_on(both, before, none_learned(), true, to, place)
        || always_holds(both.old, before, test)
            && leads_on(both, before, none_learned(), true, at + 1, place)
}

// Whether the newer code stays at its place where the older one makes this step, which doesn't count.
fn passed_over(both: Both<'_>, before: &Facts, at: u16, place: u16, instr: Instr) -> bool
    ensures { IsTrue result → passed_over (both_in both.entry) before.now at place instr ≡ true }
{
    match instr {
        Instr::Plain(plain) => is_plain_passed(both, before, at, place, plain),
        Instr::When(test, to) => when_passed(both, before, at, place, test, to),
        Instr::Unless(test, to) => unless_passed(both, before, at, place, test, to),
        Instr::Jump(to) => leads_on(both, before, none_learned(), true, to, place),
        _ => false,
    }
}

// Whether the one plain instruction, at its place of the newer code, stands for the other.
fn plains_stand(both: Both<'_>, before: &Facts, at: u16, place: u16, i: Plain, j: Plain) -> bool
    ensures { IsTrue result → instr_stands (both_in both.entry) before.now at place (Instr.Plain i) (Instr.Plain j) ≡ true }
{
    if !is_stop(i) && !goes_along(both, at, place) {
        return false;
    }
    plain_stands(both.old, both.new, both.facts, before, at, i, j)
        || shorter_stands(both.old, both.new, both.facts, before, at, i, j)
}

// Whether the newer code is at the next place where the older one is at its next one.
fn goes_along(both: Both<'_>, at: u16, place: u16) -> bool
    ensures { IsTrue result → is_there (both_in both.entry) (suc at) (suc place) ≡ true }
{
    at < 65_535 && place < 65_535 && is_there(both.places, at + 1, place + 1)
}

// Whether both branches of the newer code lead where those of the older code lead: to another place, where this local is not 0, and to the next one, where
// that one is not.
fn both_lead(
    both: Both<'_>,
    before: &Facts,
    at: u16,
    place: u16,
    there: (Learned, u16, u16),
    next: Learned,
) -> bool
    ensures { IsTrue result
        → (leads_on (both_in both.entry) before.now there.0 (counts_at both.entry.older.now at) there.1 there.2 ≡ true)
        × (leads_on (both_in both.entry) before.now next (counts_at both.entry.older.now at) (suc at) (suc place) ≡ true) }
{
    let (sure, to, other) = there;
    let counts = counts_at(both.older, at);
    at < 65_535
        && place < 65_535
        && leads_on(both, before, sure, counts, to, other)
        && leads_on(both, before, next, counts, at + 1, place + 1)
}

// Whether both ways of a branch of the older code lead where those of the other branch of the newer code lead: to the next place, where this local is not 0,
// and to another one, where that one is not.
fn both_turn(
    both: Both<'_>,
    before: &Facts,
    at: u16,
    place: u16,
    there: (Learned, u16),
    next: (Learned, u16),
) -> bool
    ensures { IsTrue result
        → (leads_on (both_in both.entry) before.now there.0 (counts_at both.entry.older.now at) there.1 (suc place) ≡ true)
        × (leads_on (both_in both.entry) before.now next.0 (counts_at both.entry.older.now at) (suc at) next.1 ≡ true) }
{
    let (sure, to) = there;
    let (other, behind) = next;
    let counts = counts_at(both.older, at);
    at < 65_535
        && place < 65_535
        && leads_on(both, before, sure, counts, to, place + 1)
        && leads_on(both, before, other, counts, at + 1, behind)
}

fn calls_stand(both: Both<'_>, before: &Facts, at: u16, place: u16, c: Call, d: Call) -> bool
    ensures { IsTrue result → instr_stands (both_in both.entry) before.now at place (Instr.Call c) (Instr.Call d) ≡ true }
{
    goes_along(both, at, place)
        && same_call(before.twins.as_slice(), c, d)
        && leads_at(
            both.new,
            both.facts,
            before,
            call_change(both.old, both.new, c, d),
            usize::from(at) + 1,
        )
}

fn checks_stand(
    both: Both<'_>,
    before: &Facts,
    at: u16,
    place: u16,
    test: Test,
    to: u16,
    other: u16,
) -> bool
    ensures { IsTrue result → instr_stands (both_in both.entry) before.now at place (Instr.Unless test to) (Instr.Jump other) ≡ true }
{
    let counts = counts_at(both.older, at);
    never_holds(both.old, before, test) && leads_on(both, before, none_learned(), counts, to, other)
}

fn takes_stand(
    both: Both<'_>,
    before: &Facts,
    at: u16,
    place: u16,
    test: Test,
    to: u16,
    other: u16,
) -> bool
    ensures { IsTrue result → instr_stands (both_in both.entry) before.now at place (Instr.When test to) (Instr.Jump other) ≡ true }
{
    let counts = counts_at(both.older, at);
    always_holds(both.old, before, test)
        && leads_on(both, before, none_learned(), counts, to, other)
}

fn tests_stand(both: Both<'_>, before: &Facts, t: Test, u: Test) -> bool
    ensures { IsTrue result → same_test both.entry.old.now both.entry.new.now before.now t u ≡ true }
{
    same_test(both.old, both.new, before, t, u)
}

// What is known where the test holds.
fn met(both: Both<'_>, before: &Facts, test: Test) -> Learned
    ensures { result ≡ learned_met both.entry.old.now before.now.bounds test }
{
    learned_met(both.old, before.bounds.as_slice(), test)
}

fn unmet(both: Both<'_>, before: &Facts, test: Test) -> Learned
    ensures { result ≡ learned_unmet both.entry.old.now before.now.bounds test }
{
    learned_unmet(both.old, before.bounds.as_slice(), test)
}

// Whether an instruction of the newer code, at its place, stands for one of the older code, by what is known before that.
fn instr_stands(both: Both<'_>, before: &Facts, at: u16, place: u16, i: Instr, j: Instr) -> bool
    ensures { IsTrue result → instr_stands (both_in both.entry) before.now at place i j ≡ true }
{
    let twins = before.twins.as_slice();
    match (i, j) {
        (Instr::Plain(p), Instr::Plain(q)) => plains_stand(both, before, at, place, p, q),
        (Instr::Plain(p), Instr::Jump(to)) => stops_so(p, instr_at(both.newer, to)),
        (Instr::When(t, to), Instr::When(u, other)) => {
            tests_stand(both, before, t, u)
                && both_lead(
                    both,
                    before,
                    at,
                    place,
                    (met(both, before, t), to, other),
                    unmet(both, before, t),
                )
        }
        (Instr::Unless(t, to), Instr::Unless(u, other)) => {
            tests_stand(both, before, t, u)
                && both_lead(
                    both,
                    before,
                    at,
                    place,
                    (unmet(both, before, t), to, other),
                    met(both, before, t),
                )
        }
        (Instr::When(t, to), Instr::Unless(u, other)) => {
            tests_stand(both, before, t, u)
                && both_turn(
                    both,
                    before,
                    at,
                    place,
                    (met(both, before, t), to),
                    (unmet(both, before, t), other),
                )
        }
        (Instr::Unless(t, to), Instr::When(u, other)) => {
            tests_stand(both, before, t, u)
                && both_turn(
                    both,
                    before,
                    at,
                    place,
                    (unmet(both, before, t), to),
                    (met(both, before, t), other),
                )
        }
        (Instr::Unless(t, to), Instr::Jump(other)) => checks_stand(
            both, before, at, place, t, to, other,
        ),
        (Instr::When(t, to), Instr::Jump(other)) => takes_stand(
            both, before, at, place, t, to, other,
        ),
        (Instr::Jump(to), Instr::Jump(other)) => leads_on(
            both,
            before,
            none_learned(),
            false,
            to,
            other,
        ),
        (Instr::Call(c), Instr::Call(d)) => calls_stand(both, before, at, place, c, d),
        (Instr::Return(w, u), Instr::Return(v, z)) => w == v && stands_for(twins, u, z),
        (Instr::Return(w, u), Instr::Jump(to)) => gives_same(twins, w, u, instr_at(both.newer, to)),
        (Instr::Idle, Instr::Idle) => {
            goes_along(both, at, place)
                && leads_at(
                    both.new,
                    both.facts,
                    before,
                    no_change(),
                    usize::from(at) + 1,
                )
        }
        _ => false,
    }
}

// Whether the instruction at a place of the newer code stands for one of the older code.
fn stands_by(both: Both<'_>, before: &Facts, at: u16, place: u16, i: Instr) -> bool
    ensures { IsTrue result → stands_by (both_in both.entry) before.now at place i (slice_get both.entry.newer.now place) ≡ true }
{
    match both.newer.get(usize::from(place)) {
        Some(j) => instr_stands(both, before, at, place, i, *j),
        None => false,
    }
}

// Whether an instruction of the older code is left out or stood for, by what is known at its place.
fn place_stands(both: Both<'_>, known: &Facts, at: u16, place: u16, i: Instr) -> bool
    ensures { IsTrue result → place_stands (both_in both.entry) known.now at place i ≡ true }
{
    !known.reached || passed_over(both, known, at, place, i) || stands_by(both, known, at, place, i)
}

/// Whether the instruction at a place of the older code is left out or stood for.
pub fn stands_at(both: Both<'_>, at: u16) -> bool
    ensures { IsTrue result → stands_at (both_in both.entry) at (slice_get both.entry.facts.now at) (slice_get both.entry.older.now at)
        (slice_get both.entry.places.now at) ≡ true }
{
    let index = usize::from(at);
    match (
        both.facts.get(index),
        both.older.get(index),
        both.places.get(index),
    ) {
        (Some(known), Some(i), Some(place)) => place_stands(both, known, at, *place, *i),
        _ => false,
    }
}
