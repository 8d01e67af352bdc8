// What waits behind an instruction.
ghost use Rattle.std.specs.Prelude.{◌≡◌, ◌∷◌, OnOk, drop, reverse};
ghost use Rattle.vg_lin.specs.Sound.{behind};

use vg_base::NoMemory;
use vg_lin::{Instr, Plain};

// The newest values wait no more, so many.
#[tactic(auto, using(crate::proofs::Turning::kept))]
fn drop_newest(waits: &mut Vec<u8>, count: usize)
    ensures { reverse waits.new.items ≡ drop count (reverse waits.old.items) }
{
    let left = waits.len().saturating_sub(count);
    waits.truncate(left);
}

#[tactic(auto, using(crate::proofs::Turning::newest))]
fn push_newest(waits: &mut Vec<u8>, width: u8) -> Result<(), NoMemory>
    ensures { OnOk result (reverse waits.new.items ≡ width ∷ reverse waits.old.items) }
{
    waits.push(width)?;
    Ok(())
}

/// The widths of the values that wait, the newest of them last, become those behind an instruction.
pub fn go_behind(waits: &mut Vec<u8>, instr: &Instr) -> Result<(), NoMemory>
    ensures { OnOk result (reverse waits.new.items ≡ behind instr.now (reverse waits.old.items)) }
{
    match instr {
        Instr::Plain(Plain::Push(width, _)) => push_newest(waits, *width),
        Instr::Plain(Plain::Pop(_, _)) => {
            drop_newest(waits, 1);
            Ok(())
        }
        Instr::Call(call) => {
            drop_newest(waits, usize::from(call.pushed));
            Ok(())
        }
        _ => Ok(()),
    }
}
