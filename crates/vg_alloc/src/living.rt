// Which locals are wanted back behind calls.
ghost use Rattle.std.specs.Prelude.{◌≡◌, ◌-◌, ◌^◌, ◌<◌, ◌||◌, IfOk, not, slice_get, slice_set};
ghost use Rattle.vg_templates.specs.Living.{mark, needs_at, needs_there, swept, swept_all, marks_of, serve, is_live_by, is_live, any_wants_back, lasts};

use crate::needs::{leads_to, needs, wants_back};
use std::alloc::Global;
use vg_base::NoMemory;
use vg_lin::Instr;

// Whether a place is marked.
fn mark(marks: &[bool], place: usize) -> bool
    ensures { result ≡ mark marks.now place }
{
    match marks.get(place) {
        Some(is) => *is,
        None => false,
    }
}

// Whether the instruction at a place needs a local, by the marks of other places.
fn needs_at(marks: &[bool], local: u8, place: usize, instr: &Instr) -> bool
    requires { place < 2 ^ 64 - 1 }
    ensures { result ≡ needs_at marks.now local place instr.now }
{
    let behind = mark(marks, place + 1);
    let there = mark(marks, leads_to(place, instr));
    needs(behind, there, local, instr)
}

fn put(marks: &mut Vec<bool>, place: usize, is: bool)
    ensures { marks.new.items ≡ slice_set marks.old.items place is }
{
    if place < marks.len() {
        marks[place] = is;
    }
}

// The same of the instruction of code at a place.
fn needs_there(marks: &[bool], local: u8, place: usize, code: &[Instr]) -> bool
    requires { place < 2 ^ 64 - 1 }
    ensures { result ≡ needs_there marks.now local place (slice_get code.now place) }
{
    match code.get(place) {
        Some(instr) => needs_at(marks, local, place, instr),
        None => false,
    }
}

// Whether a place is marked, or its instruction does not need the local.
fn is_fine(marks: &[bool], local: u8, place: usize, instr: &Instr) -> bool
    requires { place < 2 ^ 64 - 1 }
    ensures { result ≡ mark marks.now place || not (needs_at marks.now local place instr.now) }
{
    mark(marks, place) || !needs_at(marks, local, place, instr)
}

// Marks all places, from the last one to the first.
fn sweep(code: &[Instr], local: u8, marks: &mut Vec<bool>)
    ensures { marks.new.items ≡ swept_all code.now local marks.old.items }
{
    for place in (0..code.len()).rev() {
        let is = needs_there(marks.as_slice(), local, place, code);
        put(marks, place, is);
    }
}

// The places where a local is needed.
fn marks_of(alloc: Global, code: &[Instr], local: u8) -> Result<Vec<bool>, NoMemory>
    ensures { IfOk result (λ marks. marks.items ≡ marks_of code.now local) }
{
    let mut marks = Vec::from_elem(alloc, false, code.len())?;
    sweep(code, local, &mut marks);
    sweep(code, local, &mut marks);
    sweep(code, local, &mut marks);
    Ok(marks)
}

// Whether each place is marked that needs the local.
fn serve(code: &[Instr], local: u8, marks: &[bool]) -> bool
    ensures { result ≡ serve marks.now local 0 code.now }
{
    for place in 0..code.len() {
        if !is_fine(marks, local, place, &code[place]) {
            return false;
        }
    }
    true
}

// Whether the local is wanted behind a call, where it is live at the marked places, or everywhere.
fn is_wanted_back(code: &[Instr], local: u8, served: bool, marks: &[bool]) -> bool
    ensures { result ≡ any_wants_back (is_live_by served marks.now) local 0 code.now }
{
    for place in 0..code.len() {
        let behind = !served || mark(marks, place + 1);
        if wants_back(behind, local, &code[place]) {
            return true;
        }
    }
    false
}

/// Whether the value of a local is wanted behind a call. The error is want of memory.
pub fn lasts(alloc: Global, code: &[Instr], local: u8) -> Result<bool, NoMemory>
    ensures { IfOk result (λ lasting. lasting ≡ lasts code.now local) }
{
    let marks = marks_of(alloc, code, local)?;
    let served = serve(code, local, marks.as_slice());
    Ok(is_wanted_back(code, local, served, marks.as_slice()))
}

/// Whether the value of a local is needed where code begins. The error is want of memory.
pub fn is_live_at_entry(alloc: Global, code: &[Instr], local: u8) -> Result<bool, NoMemory>
    ensures { IfOk result (λ live. live ≡ is_live code.now local 0) }
{
    let marks = marks_of(alloc, code, local)?;
    let served = serve(code, local, marks.as_slice());
    Ok(!served || mark(marks.as_slice(), 0))
}
