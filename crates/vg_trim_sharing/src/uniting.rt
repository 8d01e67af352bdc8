// Locals of the older code that are kept in one local of the newer code.
use crate::working::Seen;
use std::alloc::Global;
use vg_base::NoMemory;
use vg_lin::{Instr, Operand, Plain};
use vg_trim_flow::{Grid, Next, at, is_at, narrowed, note, target_of, width_of};
use vg_trim_living::{is_behind, is_crossing_behind};

/// How many locals of the older code share one of the newer code.
#[derive(Clone, Copy, PartialEq, Eq)]
pub enum Unions {
    /// None.
    Apart,
    /// Those of which one is copied to the other.
    Copies,
    /// All that may.
    All,
}

// What is asked before locals are united.
#[derive(Drop)]
struct Asked {
    // locals of which one gets a value while that of the other one is needed where it is kept
    clashes: Grid,
    // locals that are kept: parameters, and those that are needed where ways meet
    kept: Vec<bool>,
    // the widths of the locals that are kept for them
    widths: Vec<u8>,
    params: usize,
}

/// For each local of the older code the one for which its local of the newer code is kept: the first of those that share it. Of locals that share one no two are
/// needed at one time. `bytes` says how many bytes hold all values of each.
pub fn united(
    alloc: Global,
    seen: &Seen<'_>,
    bytes: &[u8],
    params: usize,
    unions: Unions,
) -> Result<Vec<u8>, NoMemory> {
    let mut firsts = Vec::new(alloc);
    for local in 0..seen.widths.len() {
        firsts.push((local % 256) as u8)?;
    }
    if unions != Unions::Apart {
        let asked = asked_of(alloc, seen, bytes, params)?;
        unite_copies(seen, &asked, &mut firsts);
        if unions == Unions::All {
            unite_all(&asked, &mut firsts);
        }
    }
    Ok(firsts)
}

fn asked_of(
    alloc: Global,
    seen: &Seen<'_>,
    bytes: &[u8],
    params: usize,
) -> Result<Asked, NoMemory> {
    let locals = seen.widths.len();
    let mut asked = Asked {
        clashes: Grid::new(alloc, locals, locals, false)?,
        kept: Vec::from_elem(alloc, false, locals)?,
        widths: Vec::new(alloc),
        params,
    };
    for index in 0..locals {
        let local = (index % 256) as u8;
        let width = width_of(seen.widths, local);
        if index < params {
            note(&mut asked.kept, index);
            asked.widths.push(width)?;
        } else {
            asked.widths.push(narrowed(width, width_of(bytes, local)))?;
        }
    }
    let inside = inside_of(alloc, seen, params)?;
    for place in 0..seen.code.len() {
        if is_at(seen.ways.reached.as_slice(), place) {
            note_place(&mut asked, seen, &inside, place);
        }
    }
    Ok(asked)
}

// For each place the locals whose values may stand where they are kept.
fn inside_of(alloc: Global, seen: &Seen<'_>, params: usize) -> Result<Grid, NoMemory> {
    let locals = seen.widths.len();
    let mut inside = Grid::new(alloc, seen.code.len(), locals, false)?;
    for local in 0..params {
        inside.put(0, local, true);
    }
    for place in 0..seen.code.len() {
        if is_at(seen.ways.joins.as_slice(), place) {
            enter_all(&mut inside, &seen.life.live, place);
        }
        if is_at(seen.ways.reached.as_slice(), place) {
            flow(&mut inside, seen, place);
        }
    }
    Ok(inside)
}

fn enter_all(inside: &mut Grid, live: &Grid, place: usize) {
    for local in 0..live.locals() {
        if live.has(place, local) {
            inside.put(place, local, true);
        }
    }
}

// Each place that is not one where ways meet is led to from one before it.
fn flow(inside: &mut Grid, seen: &Seen<'_>, place: usize) {
    match seen.ways.next(place) {
        Next::Nowhere => {}
        Next::One(to) => flow_to(inside, seen, place, to),
        Next::Two(to, behind) => {
            flow_to(inside, seen, place, to);
            flow_to(inside, seen, place, behind);
        }
    }
}

fn flow_to(inside: &mut Grid, seen: &Seen<'_>, place: usize, to: usize) {
    let target = target_at(seen, place);
    for local in 0..inside.locals() {
        let is_in = if target == Some(local) {
            is_kept_behind(seen, place, local)
        } else {
            inside.has(place, local)
        };
        if is_in {
            inside.put(to, local, true);
        }
    }
}

// The local that the instruction at a place gives a value.
fn target_at(seen: &Seen<'_>, place: usize) -> Option<usize> {
    match at(seen.code, place) {
        Some(instr) => target_of(instr).map(|target| usize::from(target)),
        None => None,
    }
}

// Whether the value that a local has behind a place is needed where ways meet, and so stands where it is kept.
fn is_kept_behind(seen: &Seen<'_>, place: usize, local: usize) -> bool {
    let life = seen.life;
    is_crossing_behind(
        &life.live,
        &life.crossing,
        seen.ways,
        seen.ways.next(place),
        local,
    )
}

fn note_clash(asked: &mut Asked, first: usize, second: usize) {
    asked.clashes.put(first, second, true);
    asked.clashes.put(second, first, true);
}

// What the instruction at a place says: a value that goes where it is kept clashes with what stands where it is kept and is needed behind the instruction.
fn note_place(asked: &mut Asked, seen: &Seen<'_>, inside: &Grid, place: usize) {
    if is_at(seen.ways.joins.as_slice(), place) {
        note_kept(asked, &seen.life.live, place);
    }
    if let Some(target) = target_at(seen, place) {
        if is_kept_behind(seen, place, target) {
            note_set(asked, seen, inside, place, target);
        }
    }
}

fn note_kept(asked: &mut Asked, live: &Grid, place: usize) {
    for local in 0..live.locals() {
        if live.has(place, local) {
            note(&mut asked.kept, local);
        }
    }
}

fn note_set(asked: &mut Asked, seen: &Seen<'_>, inside: &Grid, place: usize, target: usize) {
    let next = seen.ways.next(place);
    for local in 0..inside.locals() {
        let is_needed = inside.has(place, local) && is_behind(&seen.life.live, next, local);
        if local != target && is_needed {
            note_clash(asked, target, local);
        }
    }
}

fn unite_copies(seen: &Seen<'_>, asked: &Asked, firsts: &mut Vec<u8>) {
    let mut place = 0usize;
    for instr in seen.code {
        if let Instr::Plain(Plain::Copy(to, Operand::Local(from))) = *instr {
            if is_at(seen.ways.reached.as_slice(), place) {
                unite(asked, firsts, usize::from(to), usize::from(from));
            }
        }
        place = place.saturating_add(1);
    }
}

fn unite_all(asked: &Asked, firsts: &mut Vec<u8>) {
    for local in 0..firsts.len() {
        unite_with(asked, firsts, local);
    }
}

fn unite_with(asked: &Asked, firsts: &mut Vec<u8>, local: usize) {
    for other in 0..local {
        unite(asked, firsts, other, local);
    }
}

/// The first of the locals that share one with this one.
pub fn first_of(firsts: &[u8], local: usize) -> usize {
    match firsts.get(local) {
        Some(first) => usize::from(*first),
        None => local,
    }
}

// Unites two locals, and those that share with them, where they may be.
fn unite(asked: &Asked, firsts: &mut Vec<u8>, one: usize, other: usize) {
    let first = first_of(firsts.as_slice(), one);
    let second = first_of(firsts.as_slice(), other);
    let (low, high) = if first < second {
        (first, second)
    } else {
        (second, first)
    };
    let may = low != high
        && high >= asked.params
        && is_at(asked.kept.as_slice(), one)
        && is_at(asked.kept.as_slice(), other)
        && asked.widths.get(low).copied() == asked.widths.get(high).copied()
        && !any_clashes(asked, firsts.as_slice(), low, high);
    if may {
        rename(firsts, high, low);
    }
}

// Whether a local that shares with the first one clashes with one that shares with the second one.
fn any_clashes(asked: &Asked, firsts: &[u8], low: usize, high: usize) -> bool {
    for local in 0..firsts.len() {
        if first_of(firsts, local) == low && clashes_with(asked, firsts, local, high) {
            return true;
        }
    }
    false
}

fn clashes_with(asked: &Asked, firsts: &[u8], local: usize, high: usize) -> bool {
    for other in 0..firsts.len() {
        if first_of(firsts, other) == high && asked.clashes.has(local, other) {
            return true;
        }
    }
    false
}

fn rename(firsts: &mut Vec<u8>, from: usize, to: usize) {
    for index in 0..firsts.len() {
        if index < firsts.len() && usize::from(firsts[index]) == from {
            firsts[index] = (to % 256) as u8;
        }
    }
}
