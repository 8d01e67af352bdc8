// What is known behind an instruction.
ghost use Rattle.std.specs.Prelude.{◌≡◌, true, nat_lt, slice_get, if◌then◌else◌};
ghost use Rattle.vg_lin.specs.declared.instr.Operand.TheVariants.{Local};
ghost use Rattle.vg_trimming.specs.Facts.{same_home, gains, twin_lasts, twins_last, stays_filled, all_stay_filled, leads, leads_at, begins_so};
ghost use Rattle.vg_trimming.specs.Facts.{is_none_filled, is_none_worked, is_none_bounded, begins_with, stays_bounded, all_stay_bounded};

use crate::bounds::is_bounded;
use crate::homes::{bytes_of, is_filled, is_it, is_twin, overwrites, same_home, stands_for};
use crate::worked::all_stay_worked;
use vg_lin::Operand;
use vg_trimming::{Bound, Change, Facts, Gain, Twin, Worked};

/// Whether the newer code has the new value there.
fn gains(widths: &[u8], twins: &[Twin], new: Option<u8>, gain: Gain, home: Operand) -> bool
    ensures { result ≡ gains widths.now twins.now new gain home }
{
    match gain {
        Gain::Nothing => false,
        Gain::In(local) => same_home(Operand::Local(local), home),
        Gain::Copied(from, width) => {
            stands_for(twins, from, home)
                && bytes_of(widths, home) <= width
                && !overwrites(new, home)
        }
    }
}

fn twin_lasts(widths: &[u8], twins: &[Twin], change: Change, twin: Twin) -> bool
    ensures { result ≡ twin_lasts widths.now twins.now change twin }
{
    if is_it(change.old, twin.local) {
        gains(widths, twins, change.new, change.gain, twin.home)
    } else {
        is_twin(twins, twin.local, twin.home) && !overwrites(change.new, twin.home)
    }
}

fn twins_last(widths: &[u8], before: &[Twin], change: Change, behind: &[Twin]) -> bool
    ensures { result ≡ twins_last widths.now before.now change behind.now }
{
    match behind {
        [] => true,
        [twin, more @ ..] => {
            twin_lasts(widths, before, change, *twin) && twins_last(widths, before, change, more)
        }
    }
}

fn stays_filled(before: &[u8], change: Change, local: u8) -> bool
    ensures { result ≡ stays_filled before.now change local }
{
    is_it(change.filled, local) || is_filled(before, local) && !is_it(change.old, local)
}

fn all_stay_filled(before: &[u8], change: Change, behind: &[u8]) -> bool
    ensures { result ≡ all_stay_filled before.now change behind.now }
{
    match behind {
        [] => true,
        [local, more @ ..] => {
            stays_filled(before, change, *local) && all_stay_filled(before, change, more)
        }
    }
}

fn stays_bounded(before: &[Bound], change: Change, bound: Bound) -> bool
    ensures { result ≡ stays_bounded before.now change bound }
{
    if is_it(change.old, bound.local) {
        change.most <= bound.most
    } else {
        is_bounded(before, bound)
    }
}

fn all_stay_bounded(before: &[Bound], change: Change, behind: &[Bound]) -> bool
    ensures { result ≡ all_stay_bounded before.now change behind.now }
{
    match behind {
        [] => true,
        [bound, more @ ..] => {
            stays_bounded(before, change, *bound) && all_stay_bounded(before, change, more)
        }
    }
}

fn leads(widths: &[u8], before: &Facts, change: Change, behind: &Facts) -> bool
    ensures { result ≡ leads widths.now before.now change behind.now }
{
    behind.reached
        && twins_last(
            widths,
            before.twins.as_slice(),
            change,
            behind.twins.as_slice(),
        )
        && all_stay_filled(before.filled.as_slice(), change, behind.filled.as_slice())
        && all_stay_worked(before.worked.as_slice(), change, behind.worked.as_slice())
        && all_stay_bounded(before.bounds.as_slice(), change, behind.bounds.as_slice())
}

/// Whether what is known at a place follows from what is known before an instruction that leads there, by what it changes.
pub fn leads_at(widths: &[u8], facts: &[Facts], before: &Facts, change: Change, to: usize) -> bool
    ensures { result ≡ leads_at widths.now facts.now before.now change to }
{
    match facts.get(to) {
        Some(behind) => leads(widths, before, change, behind),
        None => false,
    }
}

fn begins_so(params: u8, twins: &[Twin]) -> bool
    ensures { result ≡ begins_so params twins.now }
{
    match twins {
        [] => true,
        [twin, more @ ..] => begins_at(params, *twin) && begins_so(params, more),
    }
}

fn begins_at(params: u8, twin: Twin) -> bool
    ensures { result ≡ (if nat_lt twin.local params then same_home (Local twin.local) twin.home else true) }
{
    twin.local >= params || same_home(Operand::Local(twin.local), twin.home)
}

fn is_none_filled(filled: &[u8]) -> bool
    ensures { result ≡ is_none_filled filled.now }
{
    match filled {
        [] => true,
        _ => false,
    }
}

fn is_none_worked(worked: &[Worked]) -> bool
    ensures { result ≡ is_none_worked worked.now }
{
    match worked {
        [] => true,
        _ => false,
    }
}

fn is_none_bounded(bounds: &[Bound]) -> bool
    ensures { result ≡ is_none_bounded bounds.now }
{
    match bounds {
        [] => true,
        _ => false,
    }
}

/// Whether no more is known at the first place than what holds there.
pub fn begins_with(params: u8, facts: &[Facts]) -> bool
    ensures { result ≡ begins_with params (slice_get facts.now 0) }
{
    match facts.get(0) {
        Some(known) => {
            known.reached
                && begins_so(params, known.twins.as_slice())
                && is_none_filled(known.filled.as_slice())
                && is_none_worked(known.worked.as_slice())
                && is_none_bounded(known.bounds.as_slice())
        }
        None => false,
    }
}
