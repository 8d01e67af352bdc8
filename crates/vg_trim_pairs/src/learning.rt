// What a branch tells of its operands.
ghost use Rattle.std.specs.Prelude.{◌≡◌};
ghost use Rattle.vg_trimming.specs.Walking.{tells_less, none_learned, bound_of, bound_met, bound_unmet, learned_met, learned_unmet, is_told};

use crate::bounds::{most_in, most_of};
use crate::walking::checked;
use vg_lin::{Comparison, Operand, Test};
use vg_trimming::{Bound, Learned};

pub fn none_learned() -> Learned
    ensures { result ≡ none_learned }
{
    Learned {
        filled: None,
        bound: None,
    }
}

/// Whether, of operands of at most so much, a comparison says which one is less.
pub fn tells_less(comparison: Comparison, width: u8, left: u32, right: u32) -> bool
    ensures { result ≡ tells_less comparison width left right }
{
    match comparison {
        Comparison::Below => true,
        Comparison::Less => left <= most_in(width) / 2 && right <= most_in(width) / 2,
        Comparison::Same => false,
    }
}

fn bound_of(operand: Operand, most: u32) -> Option<Bound>
    ensures { result ≡ bound_of operand most }
{
    match operand {
        Operand::Local(local) => Some(Bound { local, most }),
        Operand::Known(_) => None,
    }
}

fn bound_met(test: Test, left: u32, right: u32) -> Option<Bound>
    ensures { result ≡ bound_met test left right }
{
    if tells_less(test.comparison, test.width, left, right) && left <= most_in(test.width) {
        bound_of(test.left, right.saturating_sub(1))
    } else {
        None
    }
}

fn bound_unmet(test: Test, left: u32, right: u32) -> Option<Bound>
    ensures { result ≡ bound_unmet test left right }
{
    if tells_less(test.comparison, test.width, left, right) && right <= most_in(test.width) {
        bound_of(test.right, left)
    } else {
        None
    }
}

/// What is known where a test holds.
pub fn learned_met(old: &[u8], bounds: &[Bound], test: Test) -> Learned
    ensures { result ≡ learned_met old.now bounds.now test }
{
    let left = most_of(old, bounds, test.left);
    let right = most_of(old, bounds, test.right);
    Learned {
        filled: None,
        bound: bound_met(test, left, right),
    }
}

/// What is known where a test does not hold.
pub fn learned_unmet(old: &[u8], bounds: &[Bound], test: Test) -> Learned
    ensures { result ≡ learned_unmet old.now bounds.now test }
{
    let left = most_of(old, bounds, test.left);
    let right = most_of(old, bounds, test.right);
    Learned {
        filled: checked(test),
        bound: bound_unmet(test, left, right),
    }
}

/// Whether what a branch told says so.
pub fn is_told(told: Option<Bound>, bound: Bound) -> bool
    ensures { result ≡ is_told told bound }
{
    match told {
        Some(one) => one.local == bound.local && one.most <= bound.most,
        None => false,
    }
}
