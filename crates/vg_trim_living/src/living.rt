// Which locals are needed.
use std::alloc::Global;
use vg_base::NoMemory;
use vg_lin::Instr;
use vg_trim_flow::{Grid, Next, Ways, is_at, is_read, reads_of, target_of};

/// Which locals are needed.
#[derive(Drop)]
pub struct Life {
    /// For each place the locals whose values are needed there or later.
    pub live: Grid,
    /// For each place the locals whose values are needed where ways meet.
    pub crossing: Grid,
}

/// Which locals of code are needed.
pub fn find_life(
    alloc: Global,
    code: &[Instr],
    ways: &Ways,
    locals: usize,
) -> Result<Life, NoMemory> {
    let live = find_live(alloc, code, ways, locals)?;
    crossed(alloc, code, ways, live)
}

/// For each place the locals whose values are needed there or later.
pub fn find_live(
    alloc: Global,
    code: &[Instr],
    ways: &Ways,
    locals: usize,
) -> Result<Grid, NoMemory> {
    let mut live = Grid::new(alloc, code.len(), locals, false)?;
    for _pass in code {
        if !flow_back(&mut live, code, ways) {
            return Ok(live);
        }
    }
    Ok(live)
}

// Brings what is needed behind each instruction before it, and says whether that changed a set.
fn flow_back(live: &mut Grid, code: &[Instr], ways: &Ways) -> bool {
    let mut is_changed = false;
    let count = code.len();
    for step in 0..count {
        let place = count - 1 - step;
        if is_at(ways.reached.as_slice(), place) && flow_at(live, code[place], ways, place) {
            is_changed = true;
        }
    }
    is_changed
}

fn flow_at(live: &mut Grid, instr: Instr, ways: &Ways, place: usize) -> bool {
    let next = ways.next(place);
    let reads = reads_of(instr);
    let target = target_of(instr);
    let is_left_out = is_at(ways.needless.as_slice(), place);
    let mut is_changed = false;
    let count = live.locals();
    for local in 0..count {
        let number = (local % 256) as u8;
        let is_needed = (!is_left_out && is_read(reads, number))
            || (is_behind(live, next, local) && !is_set(target, number));
        if is_needed && live.put(place, local, true) {
            is_changed = true;
        }
    }
    is_changed
}

/// Whether a local is needed behind an instruction.
pub fn is_behind(live: &Grid, next: Next, local: usize) -> bool {
    match next {
        Next::Nowhere => false,
        Next::One(to) => live.has(to, local),
        Next::Two(to, behind) => live.has(to, local) || live.has(behind, local),
    }
}

fn is_set(target: Option<u8>, local: u8) -> bool {
    match target {
        Some(other) => other == local,
        None => false,
    }
}

// Which of them are needed where ways meet.
fn crossed(alloc: Global, code: &[Instr], ways: &Ways, live: Grid) -> Result<Life, NoMemory> {
    let count = code.len();
    let mut crossing = Grid::new(alloc, count, live.locals(), false)?;
    for step in 0..count {
        let place = count - 1 - step;
        if is_at(ways.reached.as_slice(), place) {
            cross_at(&live, &mut crossing, code[place], ways, place);
        }
    }
    Ok(Life { live, crossing })
}

fn cross_at(live: &Grid, crossing: &mut Grid, instr: Instr, ways: &Ways, place: usize) {
    let next = ways.next(place);
    let target = target_of(instr);
    for local in 0..live.locals() {
        let number = (local % 256) as u8;
        let is_crossing = is_crossing_behind(live, crossing, ways, next, local);
        if is_crossing && !is_set(target, number) {
            crossing.put(place, local, true);
        }
    }
}

/// Whether the value of a local behind an instruction is needed where ways meet.
pub fn is_crossing_behind(
    live: &Grid,
    crossing: &Grid,
    ways: &Ways,
    next: Next,
    local: usize,
) -> bool {
    match next {
        Next::Nowhere => false,
        Next::One(to) => is_crossing_at(live, crossing, ways, to, local),
        Next::Two(to, behind) => {
            is_crossing_at(live, crossing, ways, to, local)
                || is_crossing_at(live, crossing, ways, behind, local)
        }
    }
}

fn is_crossing_at(live: &Grid, crossing: &Grid, ways: &Ways, to: usize, local: usize) -> bool {
    if is_at(ways.joins.as_slice(), to) {
        live.has(to, local)
    } else {
        crossing.has(to, local)
    }
}
