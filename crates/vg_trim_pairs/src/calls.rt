// Calls.
ghost use Rattle.std.specs.Prelude.{◌≡◌, true, IsTrue};
ghost use Rattle.vg_trimming.specs.Trimming.{same_callee, same_passed, same_registers, same_target, local_of, call_change, same_call};

use crate::homes::stands_for;
use crate::plains::gain_in;
use vg_lin::{Call, Callee, Passed, Registers, Target};
use vg_trimming::{Change, Twin};

fn same_callee(twins: &[Twin], old: Callee, new: Callee) -> bool
    ensures { result ≡ same_callee twins.now old new }
{
    match (old, new) {
        (Callee::Procedure(q), Callee::Procedure(r)) => q == r,
        (Callee::Code(a), Callee::Code(b)) => stands_for(twins, a, b),
        _ => false,
    }
}

fn same_passed(twins: &[Twin], old: Passed, new: Passed) -> bool
    ensures { result ≡ same_passed twins.now old new }
{
    old.width == new.width && stands_for(twins, old.value, new.value)
}

fn same_registers(twins: &[Twin], old: Registers, new: Registers) -> bool
    ensures { IsTrue result → same_registers twins.now old new ≡ true }
{
    match (old, new) {
        (Registers::Empty, Registers::Empty) => true,
        (Registers::One(a), Registers::One(b)) => same_passed(twins, a, b),
        (Registers::Two(a, b), Registers::Two(c, d)) => {
            same_passed(twins, a, c) && same_passed(twins, b, d)
        }
        (Registers::Three(a, b, c), Registers::Three(d, e, f)) => {
            same_passed(twins, a, d) && same_passed(twins, b, e) && same_passed(twins, c, f)
        }
        (Registers::Four(a, b, c, d), Registers::Four(e, f, g, h)) => {
            same_passed(twins, a, e)
                && same_passed(twins, b, f)
                && same_passed(twins, c, g)
                && same_passed(twins, d, h)
        }
        _ => false,
    }
}

/// Whether the result goes to locals of the same number of bytes, or is dropped where nobody needs it.
fn same_target(old: Option<Target>, new: Option<Target>) -> bool
    ensures { result ≡ same_target old new }
{
    match (old, new) {
        (Some(t), Some(u)) => t.width == u.width,
        (None, Some(_)) => false,
        _ => true,
    }
}

fn local_of(target: Option<Target>) -> Option<u8>
    ensures { result ≡ local_of target }
{
    match target {
        Some(t) => Some(t.local),
        None => None,
    }
}

/// What both calls change.
pub fn call_change(old: &[u8], new: &[u8], c: Call, d: Call) -> Change
    ensures { result ≡ call_change old.now new.now c d }
{
    let from = local_of(c.to);
    let to = local_of(d.to);
    Change {
        old: from,
        new: to,
        gain: gain_in(old, new, from, to, 5, 4_294_967_295),
        filled: None,
        worked: None,
        most: 4_294_967_295,
    }
}

/// Whether both call the same with the same values.
pub fn same_call(twins: &[Twin], c: Call, d: Call) -> bool
    ensures { IsTrue result → same_call twins.now c d ≡ true }
{
    same_callee(twins, c.callee, d.callee)
        && c.pushed == d.pushed
        && same_registers(twins, c.registers, d.registers)
        && same_target(c.to, d.to)
}
