// Where values of the older code stand in the newer code.
ghost use Rattle.std.specs.Prelude.{◌≡◌, get_or};
ghost use Rattle.vg_trimming.specs.Facts.{same_home, is_twin, stands_for, is_filled, bytes_of, is_it, overwrites};

use vg_lin::Operand;
use vg_trimming::Twin;

pub fn same_home(a: Operand, b: Operand) -> bool
    ensures { result ≡ same_home a b }
{
    match (a, b) {
        (Operand::Local(i), Operand::Local(j)) => i == j,
        (Operand::Known(v), Operand::Known(w)) => v == w,
        _ => false,
    }
}

/// Whether the value of a local of the older code stands there.
pub fn is_twin(twins: &[Twin], local: u8, home: Operand) -> bool
    ensures { result ≡ is_twin twins.now local home }
{
    match twins {
        [] => false,
        [twin, more @ ..] => {
            twin.local == local && same_home(twin.home, home) || is_twin(more, local, home)
        }
    }
}

/// Whether an operand of the newer code has the value of one of the older code.
pub fn stands_for(twins: &[Twin], old: Operand, new: Operand) -> bool
    ensures { result ≡ stands_for twins.now old new }
{
    match old {
        Operand::Local(i) => is_twin(twins, i, new),
        Operand::Known(_) => same_home(old, new),
    }
}

pub fn is_filled(filled: &[u8], local: u8) -> bool
    ensures { result ≡ is_filled filled.now local }
{
    match filled {
        [] => false,
        [one, more @ ..] => *one == local || is_filled(more, local),
    }
}

/// How many bytes hold the value of an operand; more than any local has, where that is not told.
pub fn bytes_of(widths: &[u8], operand: Operand) -> u8
    ensures { result ≡ bytes_of widths.now operand }
{
    match operand {
        Operand::Local(i) => width_of(widths, i, 5),
        Operand::Known(v) => {
            if v < 256 {
                1
            } else if v < 65_536 {
                2
            } else {
                5
            }
        }
    }
}

/// The width of a local, or another number where there is no such local.
pub fn width_of(widths: &[u8], local: u8, other: u8) -> u8
    ensures { result ≡ get_or widths.now local other }
{
    match widths.get(usize::from(local)) {
        Some(width) => *width,
        None => other,
    }
}

pub fn is_it(changed: Option<u8>, local: u8) -> bool
    ensures { result ≡ is_it changed local }
{
    match changed {
        Some(one) => one == local,
        None => false,
    }
}

pub fn overwrites(changed: Option<u8>, home: Operand) -> bool
    ensures { result ≡ overwrites changed home }
{
    match changed {
        Some(one) => same_home(Operand::Local(one), home),
        None => false,
    }
}
