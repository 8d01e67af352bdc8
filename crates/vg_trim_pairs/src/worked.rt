// What was computed already.
ghost use Rattle.std.specs.Prelude.{◌≡◌};
ghost use Rattle.vg_trimming.specs.Facts.{same_operator, is_of, found_for, same_worked, is_worked, is_new, stays_worked, all_stay_worked};

use crate::homes::{overwrites, same_home};
use vg_lin::{Computation, Operand, Operator};
use vg_trimming::{Change, Worked};

pub fn same_operator(a: Operator, b: Operator) -> bool
    ensures { result ≡ same_operator a b }
{
    match (a, b) {
        (Operator::Plus, Operator::Plus) => true,
        (Operator::Minus, Operator::Minus) => true,
        (Operator::Times, Operator::Times) => true,
        (Operator::Divide, Operator::Divide) => true,
        (Operator::Remainder, Operator::Remainder) => true,
        (Operator::And, Operator::And) => true,
        (Operator::Or, Operator::Or) => true,
        (Operator::Xor, Operator::Xor) => true,
        (Operator::ShiftLeft, Operator::ShiftLeft) => true,
        (Operator::ShiftRight, Operator::ShiftRight) => true,
        _ => false,
    }
}

/// Whether this is known of a computation with these operands.
fn is_of(worked: Worked, c: Computation) -> bool
    ensures { result ≡ is_of worked c }
{
    same_operator(worked.operator, c.operator)
        && worked.width == c.width
        && same_home(worked.left, c.left)
        && same_home(worked.right, c.right)
}

/// What is known of a computation.
pub fn found_for(worked: &[Worked], c: Computation) -> Option<Worked>
    ensures { result ≡ found_for worked.now c }
{
    match worked {
        [] => None,
        [one, more @ ..] => {
            if is_of(*one, c) {
                Some(*one)
            } else {
                found_for(more, c)
            }
        }
    }
}

fn same_worked(a: Worked, b: Worked) -> bool
    ensures { result ≡ same_worked a b }
{
    same_operator(a.operator, b.operator)
        && a.width == b.width
        && same_home(a.left, b.left)
        && same_home(a.right, b.right)
        && a.home == b.home
}

pub fn is_worked(worked: &[Worked], known: Worked) -> bool
    ensures { result ≡ is_worked worked.now known }
{
    match worked {
        [] => false,
        [one, more @ ..] => same_worked(*one, known) || is_worked(more, known),
    }
}

fn is_new(gained: Option<Worked>, known: Worked) -> bool
    ensures { result ≡ is_new gained known }
{
    match gained {
        Some(one) => same_worked(one, known),
        None => false,
    }
}

fn stays_worked(before: &[Worked], change: Change, known: Worked) -> bool
    ensures { result ≡ stays_worked before.now change known }
{
    is_new(change.worked, known)
        || is_worked(before, known)
            && !overwrites(change.old, known.left)
            && !overwrites(change.old, known.right)
            && !overwrites(change.new, Operand::Local(known.home))
}

/// Whether all that is known of computations behind a change follows from what is known before it.
pub fn all_stay_worked(before: &[Worked], change: Change, behind: &[Worked]) -> bool
    ensures { result ≡ all_stay_worked before.now change behind.now }
{
    match behind {
        [] => true,
        [known, more @ ..] => {
            stays_worked(before, change, *known) && all_stay_worked(before, change, more)
        }
    }
}
