// What waits in a procedure, and the most that is kept there.
ghost use Rattle.std.specs.Prelude.{◌≡◌, ◌+◌, ◌≤◌, ◌∷◌, [], IfOk, IfSome, IsSome, OnOk, drop, length, reverse};
ghost use Rattle.vg_lin.specs.Sound.{behind};
ghost use Rattle.vg_frame_costs.specs.Bytes.{bytes_of, kept_at as kept_in, most_kept as most_in};

use crate::counting::{larger, width_sum};
use std::alloc::Global;
use vg_base::NoMemory;
use vg_lin::{Instr, Plain};

/// The most bytes that are kept at a place of code. There are none where more than 65,535 values may wait at one time, as they never do where code has no more
/// instructions.
pub fn most_kept(alloc: Global, code: &[Instr]) -> Result<Option<u32>, NoMemory>
    ensures most { IfOk result (λ most. IfSome most (λ bytes. bytes ≡ most_in [] code.now)) }
    ensures there { length code.now ≤ 65535 → IfOk result (λ most. IsSome most) }
{
    let mut waits = Vec::new(alloc);
    let mut most = 0;
    for instr in code {
        if waits.len() > 65_535 {
            return Ok(None);
        }
        most = larger(most, kept_at(waits.as_slice(), instr));
        go_behind(&mut waits, instr)?;
    }
    Ok(Some(most))
}

// The bytes that are kept at an instruction, where values of these widths wait, the newest of them last.
fn kept_at(waits: &[u8], instr: &Instr) -> u32
    requires { length waits.now ≤ 65535 }
    ensures { result ≡ kept_in (reverse waits.now) instr.now }
{
    match instr {
        Instr::Plain(Plain::Push(_, _)) => 0,
        Instr::Call(call) => bytes_left(waits, usize::from(call.pushed)),
        _ => bytes_left(waits, 0),
    }
}

// The bytes of values that wait, but for so many of the newest.
#[tactic(auto, using(crate::proofs::Counted::bytes_left))]
fn bytes_left(waits: &[u8], count: usize) -> u32
    requires { length waits.now ≤ 65535 }
    ensures { result ≡ bytes_of (drop count (reverse waits.now)) }
{
    let left = waits.len().saturating_sub(count);
    width_sum(&waits[..left])
}

// The widths of the values that wait, the newest of them last, become those behind an instruction.
fn go_behind(waits: &mut Vec<u8>, instr: &Instr) -> Result<(), NoMemory>
    ensures behind { OnOk result (reverse waits.new.items ≡ behind instr.now (reverse waits.old.items)) }
    ensures few { OnOk result (length waits.new.items ≤ length waits.old.items + 1) }
{
    match instr {
        Instr::Plain(Plain::Push(width, _)) => push_newest(waits, *width),
        Instr::Plain(Plain::Pop(_, _)) => {
            drop_newest(waits, 1);
            Ok(())
        }
        Instr::Call(call) => {
            drop_newest(waits, usize::from(call.pushed));
            Ok(())
        }
        _ => Ok(()),
    }
}

#[tactic(auto, using(crate::proofs::Newest::newest))]
fn push_newest(waits: &mut Vec<u8>, width: u8) -> Result<(), NoMemory>
    ensures newest { OnOk result (reverse waits.new.items ≡ width ∷ reverse waits.old.items) }
    ensures few { OnOk result (length waits.new.items ≤ length waits.old.items + 1) }
{
    waits.push(width)?;
    Ok(())
}

// The newest values wait no more, so many.
#[tactic(auto, using(crate::proofs::Newest::kept))]
fn drop_newest(waits: &mut Vec<u8>, count: usize)
    ensures left { reverse waits.new.items ≡ drop count (reverse waits.old.items) }
    ensures few { length waits.new.items ≤ length waits.old.items }
{
    let left = waits.len().saturating_sub(count);
    waits.truncate(left);
}
