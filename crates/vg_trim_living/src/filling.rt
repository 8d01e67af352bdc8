// Which places runs reach, and which locals are not 0 there.
use std::alloc::Global;
use vg_base::NoMemory;
use vg_lin::{Instr, Plain};
use vg_trim_flow::{Grid, Next, checked, next_in, target_of, width_of};

/// For each place the locals that are not 0 whenever a run comes there.
pub fn filled(
    alloc: Global,
    code: &[Instr],
    nexts: &[Next],
    locals: usize,
) -> Result<Grid, NoMemory> {
    let mut grid = Grid::new(alloc, code.len(), locals, true)?;
    for local in 0..locals {
        grid.put(0, local, false);
    }
    for _pass in code {
        if !spread(&mut grid, code, nexts) {
            return Ok(grid);
        }
    }
    Ok(grid)
}

// Takes from the sets behind each instruction what is not sure, and says whether that changed one.
fn spread(grid: &mut Grid, code: &[Instr], nexts: &[Next]) -> bool {
    let mut is_changed = false;
    let mut place = 0usize;
    for instr in code {
        if spread_at(grid, *instr, next_in(nexts, place), place) {
            is_changed = true;
        }
        place = place.saturating_add(1);
    }
    is_changed
}

fn spread_at(grid: &mut Grid, instr: Instr, next: Next, place: usize) -> bool {
    match next {
        Next::Nowhere => false,
        Next::One(to) => narrow(grid, place, to, target_of(instr), None),
        Next::Two(to, behind) => {
            let (there, here) = checks(instr);
            let first = narrow(grid, place, to, None, there);
            let second = narrow(grid, place, behind, None, here);
            first || second
        }
    }
}

// The local that is not 0 where a branch is taken, and the one that is not where it is not.
fn checks(instr: Instr) -> (Option<u8>, Option<u8>) {
    match instr {
        Instr::When(test, _) => (None, checked(test)),
        Instr::Unless(test, _) => (checked(test), None),
        _ => (None, None),
    }
}

// Takes from the set of a place what another one, from which a run may come there, does not have.
fn narrow(grid: &mut Grid, from: usize, to: usize, set: Option<u8>, sure: Option<u8>) -> bool {
    let mut is_changed = false;
    for local in 0..grid.locals() {
        let is_sure = is_local(sure, local) || (grid.has(from, local) && !is_local(set, local));
        if !is_sure && grid.put(to, local, false) {
            is_changed = true;
        }
    }
    is_changed
}

fn is_local(some: Option<u8>, local: usize) -> bool {
    match some {
        Some(other) => usize::from(other) == local,
        None => false,
    }
}

/// Whether the instruction at a place is a branch that is always taken, since its local is not 0.
pub fn is_filled_test(filled: &Grid, widths: &[u8], instr: Instr, place: usize) -> bool {
    match instr {
        Instr::Unless(test, _) => match checked(test) {
            Some(local) => {
                filled.has(place, usize::from(local)) && width_of(widths, local) <= test.width
            }
            None => false,
        },
        _ => false,
    }
}

/// Whether an instruction is a stop.
pub fn is_stop(instr: Option<Instr>) -> bool {
    match instr {
        Some(Instr::Plain(Plain::Stop(_))) => true,
        _ => false,
    }
}
