// Which instructions count.
ghost use Rattle.std.specs.Prelude.{◌≡◌, slice_get};
ghost use Rattle.vg_lin.specs.Turns.{jumps_back, leaves_loop, instr_counts, counts_at};

use vg_lin::Instr;

/// The instruction at a place.
pub fn instr_at(code: &[Instr], place: u16) -> Option<Instr>
    ensures { result ≡ slice_get code.now place }
{
    match code.get(usize::from(place)) {
        Some(instr) => Some(*instr),
        None => None,
    }
}

fn jumps_back(at: u16, instr: Option<Instr>) -> bool
    ensures { result ≡ jumps_back at instr }
{
    match instr {
        Some(Instr::Jump(to)) => to <= at,
        _ => false,
    }
}

// Whether a branch at a place is the test of a turn.
fn leaves_loop(code: &[Instr], at: u16, to: u16) -> bool
    ensures { result ≡ leaves_loop code.now at to }
{
    if to == 0 {
        return false;
    }
    jumps_back(at, instr_at(code, to - 1))
}

fn instr_counts(code: &[Instr], at: u16, instr: Option<Instr>) -> bool
    ensures { result ≡ instr_counts code.now at instr }
{
    match instr {
        Some(Instr::When(_, to)) => leaves_loop(code, at, to),
        Some(Instr::Unless(_, to)) => leaves_loop(code, at, to),
        Some(Instr::Call(_)) => true,
        Some(Instr::Idle) => true,
        _ => false,
    }
}

/// Whether the instruction at a place counts.
pub fn counts_at(code: &[Instr], at: u16) -> bool
    ensures { result ≡ counts_at code.now at }
{
    instr_counts(code, at, instr_at(code, at))
}
