// Branches.
ghost use Rattle.std.specs.Prelude.{◌≡◌};
ghost use Rattle.vg_trimming.specs.Facts.{no_change};
ghost use Rattle.vg_trimming.specs.Trimming.{same_comparison, is_signed, sees_as_much, says_same, sees_most, sees_so, same_test, filled_in};
ghost use Rattle.vg_trimming.specs.Trimming.{never_less, is_greater, always_less, never_holds, always_holds};

use crate::bounds::{most_in, most_of};
use crate::homes::{bytes_of, is_filled, stands_for, width_of};
use crate::learning::tells_less;
use crate::walking::checked;
use vg_lin::{Comparison, Operand, Test};
use vg_trimming::{Bound, Change, Facts, Gain};

fn same_comparison(a: Comparison, b: Comparison) -> bool
    ensures { result ≡ same_comparison a b }
{
    match (a, b) {
        (Comparison::Below, Comparison::Below) => true,
        (Comparison::Less, Comparison::Less) => true,
        (Comparison::Same, Comparison::Same) => true,
        _ => false,
    }
}

fn is_signed(comparison: Comparison) -> bool
    ensures { result ≡ is_signed comparison }
{
    match comparison {
        Comparison::Less => true,
        _ => false,
    }
}

/// Whether both see all of the values.
fn sees_as_much(widths: &[u8], old: Test, new: Test) -> bool
    ensures { result ≡ sees_as_much widths.now old new }
{
    old.width == new.width
        || !is_signed(new.comparison)
            && new.width <= old.width
            && bytes_of(widths, new.left) <= new.width
            && bytes_of(widths, new.right) <= new.width
}

// Whether they say the same of values that are not negative, of at most so much.
fn says_same(old: Comparison, new: Comparison, width: u8, left: u32, right: u32) -> bool
    ensures { result ≡ says_same old new width left right }
{
    match (old, new) {
        (Comparison::Below, Comparison::Below) => true,
        (Comparison::Same, Comparison::Same) => true,
        (Comparison::Less, Comparison::Below) => tells_less(old, width, left, right),
        _ => false,
    }
}

// Whether fewer bytes do for values of at most so much.
fn sees_most(old: Test, new: Test, left: u32, right: u32) -> bool
    ensures { result ≡ sees_most old new left right }
{
    new.width <= old.width
        && left <= most_in(new.width)
        && right <= most_in(new.width)
        && says_same(old.comparison, new.comparison, old.width, left, right)
}

fn sees_so(old: &[u8], new: &[u8], bounds: &[Bound], t: Test, u: Test) -> bool
    ensures { result ≡ sees_so old.now new.now bounds.now t u }
{
    same_comparison(t.comparison, u.comparison) && sees_as_much(new, t, u)
        || sees_most(
            t,
            u,
            most_of(old, bounds, t.left),
            most_of(old, bounds, t.right),
        )
}

/// Whether the second test, of the newer code, holds where the first does.
pub fn same_test(old: &[u8], new: &[u8], before: &Facts, t: Test, u: Test) -> bool
    ensures { result ≡ same_test old.now new.now before.now t u }
{
    stands_for(before.twins.as_slice(), t.left, u.left)
        && stands_for(before.twins.as_slice(), t.right, u.right)
        && sees_so(old, new, before.bounds.as_slice(), t, u)
}

fn filled_in(old: &[u8], filled: &[u8], width: u8, local: Option<u8>) -> bool
    ensures { result ≡ filled_in old.now filled.now width local }
{
    match local {
        Some(one) => is_filled(filled, one) && width_of(old, one, 5) <= width,
        None => false,
    }
}

// Whether the test asks if something is less than 0.
fn never_less(test: Test, left: u32, right: u32) -> bool
    ensures { result ≡ never_less test left right }
{
    tells_less(test.comparison, test.width, left, right) && right == 0
}

// Whether this is a greater number, that a test sees whole.
fn is_greater(operand: Operand, most: u32, width: u8) -> bool
    ensures { result ≡ is_greater operand most width }
{
    match operand {
        Operand::Known(number) => most < number && number <= most_in(width),
        Operand::Local(_) => false,
    }
}

fn always_less(test: Test, left: u32, right: u32) -> bool
    ensures { result ≡ always_less test left right }
{
    tells_less(test.comparison, test.width, left, right) && is_greater(test.right, left, test.width)
}

/// Whether the test compares with 0 a local that is known not to be 0, or asks whether something is less than 0.
pub fn never_holds(old: &[u8], before: &Facts, test: Test) -> bool
    ensures { result ≡ never_holds old.now before.now test }
{
    let bounds = before.bounds.as_slice();
    filled_in(old, before.filled.as_slice(), test.width, checked(test))
        || never_less(
            test,
            most_of(old, bounds, test.left),
            most_of(old, bounds, test.right),
        )
}

/// Whether the test asks if something is less than a number that it does not reach.
pub fn always_holds(old: &[u8], before: &Facts, test: Test) -> bool
    ensures { result ≡ always_holds old.now before.now test }
{
    let bounds = before.bounds.as_slice();
    always_less(
        test,
        most_of(old, bounds, test.left),
        most_of(old, bounds, test.right),
    )
}

pub fn no_change() -> Change
    ensures { result ≡ no_change }
{
    Change {
        old: None,
        new: None,
        gain: Gain::Nothing,
        filled: None,
        worked: None,
        most: 4_294_967_295,
    }
}
