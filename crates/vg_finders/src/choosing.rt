// Which dispatches get finders, and which of these look up what a dispatch has. It is a guess: the finder of a dispatch is looked at before it is called.
use crate::numbering::are_within;
use std::alloc::Global;
use vg_base::{NoMemory, Row};
use vg_cases::covers;
use vg_codes::Case;
use vg_lin::{Instr, LinProc, Plain};

/// The dispatches of finders, and their places by the dispatches that they serve.
#[derive(Drop)]
pub struct Choice {
    /// The dispatches of the finders, by number and ascending.
    pub finders: Row<u32>,
    /// Of each dispatch of the program the place of its finder among them, where it has one.
    pub places: Row<Option<u32>>,
}

// A dispatch that is asked for, with how many numbers it has procedures.
#[derive(Clone, Copy)]
struct Candidate {
    dispatch: u32,
    numbers: u64,
}

impl Choice {
    /// No finder.
    pub fn none(alloc: Global) -> Self {
        Choice {
            finders: Row::new(alloc),
            places: Row::new(alloc),
        }
    }
}

/// The finders for what procedures ask for: of each dispatch that is asked for the one with the most numbers that covers it with its fewer cases, where two
/// look-ups or more have it, and where more than one case is left. A dispatch with a case that is not among so many procedures gets none, and the procedures
/// with the finders are at most 65,536.
///
/// Each dispatch that is asked for is compared with each other one. Where they are more than 8,000, none gets a finder: an image has no room for as many.
pub fn choose(
    alloc: Global,
    procedures: &[LinProc],
    dispatches: &[Row<Case>],
    fewer: &[Row<Case>],
    count: usize,
) -> Result<Choice, NoMemory> {
    let look_ups = look_ups_in(alloc, procedures, dispatches.len())?;
    let asked = asked_for(alloc, look_ups.as_slice(), fewer)?;
    if asked.len() > 8_000 {
        return Ok(Choice::none(alloc));
    }
    let candidates = candidates_of(alloc, asked.as_slice(), dispatches)?;
    let mut covering = Vec::from_elem(alloc, None, dispatches.len())?;
    for dispatch in asked.as_slice() {
        let cases = cases_of(dispatches, *dispatch);
        if are_within(cases, count) {
            put(
                &mut covering,
                *dispatch,
                cover_of(cases, candidates.as_slice(), fewer),
            );
        }
    }
    let shared = shared_of(alloc, covering.as_slice(), look_ups.as_slice())?;
    placed(
        alloc,
        shared.as_slice(),
        65_536usize.saturating_sub(procedures.len()),
    )
}

// How many look-ups ask for each of so many dispatches.
fn look_ups_in(alloc: Global, procedures: &[LinProc], count: usize) -> Result<Row<u32>, NoMemory> {
    let mut counts = Vec::from_elem(alloc, 0u32, count)?;
    for procedure in procedures {
        count_look_ups(&mut counts, procedure.code());
    }
    Ok(Row::from_vec(counts))
}

fn count_look_ups(counts: &mut Vec<u32>, code: &[Instr]) {
    for instr in code {
        if let Instr::Plain(Plain::Find(dispatch, _, _)) = instr {
            add(counts, *dispatch, 1);
        }
    }
}

fn add(counts: &mut Vec<u32>, dispatch: u32, more: u32) {
    let place = dispatch as usize;
    if place < counts.len() {
        counts[place] = counts[place].saturating_add(more);
    }
}

fn count_at(counts: &[u32], dispatch: usize) -> u32 {
    match counts.get(dispatch) {
        Some(count) => *count,
        None => 0,
    }
}

// The dispatches that are asked for and of which more than one case is left, each once and ascending.
fn asked_for(alloc: Global, look_ups: &[u32], fewer: &[Row<Case>]) -> Result<Row<u32>, NoMemory> {
    let mut row = Row::new(alloc);
    for (place, cases) in fewer.iter().enumerate() {
        if cases.len() > 1 && count_at(look_ups, place) > 0 {
            match u32::try_from(place) {
                Ok(dispatch) => row.push(dispatch)?,
                Err(_) => {}
            }
        }
    }
    Ok(row)
}

// Those dispatches that cover others for two look-ups or more, by these others.
fn shared_of(
    alloc: Global,
    covering: &[Option<u32>],
    look_ups: &[u32],
) -> Result<Row<Option<u32>>, NoMemory> {
    let mut sharing = Vec::from_elem(alloc, 0u32, covering.len())?;
    for (place, cover) in covering.iter().enumerate() {
        if let Some(dispatch) = cover {
            add(&mut sharing, *dispatch, count_at(look_ups, place));
        }
    }
    let mut row = Row::new(alloc);
    for cover in covering {
        row.push(shared(sharing.as_slice(), *cover))?;
    }
    Ok(row)
}

fn shared(sharing: &[u32], cover: Option<u32>) -> Option<u32> {
    match cover {
        Some(dispatch) if count_at(sharing, dispatch as usize) > 1 => cover,
        _ => None,
    }
}

fn mark(marks: &mut Vec<bool>, dispatch: u32) {
    let place = dispatch as usize;
    if place < marks.len() {
        marks[place] = true;
    }
}

// The first marked places, ascending, at most so many.
fn marked(alloc: Global, marks: &[bool], most: usize) -> Result<Row<u32>, NoMemory> {
    let mut row = Row::new(alloc);
    for (place, is) in marks.iter().enumerate() {
        if *is && row.len() < most {
            match u32::try_from(place) {
                Ok(dispatch) => row.push(dispatch)?,
                Err(_) => {}
            }
        }
    }
    Ok(row)
}

// Dispatches with how many numbers they have procedures, those with the most first.
fn candidates_of(
    alloc: Global,
    asked: &[u32],
    dispatches: &[Row<Case>],
) -> Result<Row<Candidate>, NoMemory> {
    let mut row = Vec::new(alloc);
    for dispatch in asked {
        row.push(Candidate {
            dispatch: *dispatch,
            numbers: numbers_of(cases_of(dispatches, *dispatch)),
        })?;
    }
    row.sort_by_key(|one| u64::MAX - one.numbers)?;
    Ok(Row::from_vec(row))
}

// For how many numbers cases have procedures.
fn numbers_of(cases: &[Case]) -> u64 {
    let mut sum = 0u64;
    for case in cases {
        sum = sum.saturating_add(u64::from(case.count));
    }
    sum
}

// The first candidate whose fewer cases cover these.
fn cover_of(cases: &[Case], candidates: &[Candidate], fewer: &[Row<Case>]) -> Option<u32> {
    for candidate in candidates {
        if covers(cases_of(fewer, candidate.dispatch), cases) {
            return Some(candidate.dispatch);
        }
    }
    None
}

fn cases_of(dispatches: &[Row<Case>], dispatch: u32) -> &[Case] {
    match dispatches.get(dispatch as usize) {
        Some(cases) => cases.as_slice(),
        None => &[],
    }
}

// The dispatches that cover others, at most so many, and their places by those others.
fn placed(alloc: Global, covering: &[Option<u32>], most: usize) -> Result<Choice, NoMemory> {
    let mut marks = Vec::from_elem(alloc, false, covering.len())?;
    for cover in covering {
        if let Some(dispatch) = cover {
            mark(&mut marks, *dispatch);
        }
    }
    let finders = marked(alloc, marks.as_slice(), most)?;
    let own = own_places(alloc, finders.as_slice(), covering.len())?;
    let mut places = Row::new(alloc);
    for cover in covering {
        places.push(match cover {
            Some(dispatch) => at(own.as_slice(), *dispatch),
            None => None,
        })?;
    }
    Ok(Choice { finders, places })
}

// The places of finders by their own dispatches.
fn own_places(alloc: Global, finders: &[u32], count: usize) -> Result<Row<Option<u32>>, NoMemory> {
    let mut places = Vec::from_elem(alloc, None, count)?;
    let mut place = 0u32;
    for dispatch in finders {
        put(&mut places, *dispatch, Some(place));
        place = place.saturating_add(1);
    }
    Ok(Row::from_vec(places))
}

fn put(row: &mut Vec<Option<u32>>, dispatch: u32, what: Option<u32>) {
    let place = dispatch as usize;
    if place < row.len() {
        row[place] = what;
    }
}

fn at(row: &[Option<u32>], dispatch: u32) -> Option<u32> {
    match row.get(dispatch as usize) {
        Some(what) => *what,
        None => None,
    }
}
