// Where instructions lead: by distances where these reach, and else to word addresses.
ghost use Rattle.std.specs.Prelude.{ℕ, ◌≡◌, ◌+◌, ◌%◌, ◌<◌, get_or, length, slice_get, IfOk, Some};
ghost use Rattle.avr_isa.specs.Standing.{widths};
ghost use Rattle.vg_lin.specs.declared.instr.Instr.{Instr as InstrValue};
ghost use Rattle.vg_templates.specs.Whole.{call_front};
ghost use Rattle.vg_alloc.specs.Locations.{layout};
ghost use Rattle.vg_select.specs.Within.{IsCallWithin, IsWithin};
ghost use Rattle.vg_put_operations.specs.Coded.{code_from};
ghost use Rattle.vg_put_programs.specs.Programs.{aim_in, behind_in, callee_in, is_within, reach_for, reach_in};
ghost use Rattle.vg_put_programs.specs.Programs.{offset_to, hop_for, turn_for, way_for, sites, helds_upto};

use crate::reach::Reach;
use avr_instr::{FarOffset, NearOffset};
use std::alloc::Global;
use vg_alloc::Locations;
use vg_base::{NoMemory, Row};
use vg_lin::{Call, Callee, Instr};
use vg_put_flow::{Hop, Turn, Way};
use vg_put_operations::code_of;
use vg_put_procedures::words::behind_code;
use vg_select::{Leading, put_call_front};

// The word address of the instruction at a place.
fn place_in(places: &[u32], place: usize) -> u32
    ensures { result ≡ get_or places.now place 0 }
{
    match places.get(place) {
        Some(address) => *address,
        None => 0,
    }
}

// The entry of a procedure.
fn entry_of(entries: &[u32], procedure: u16) -> u32
    ensures { result ≡ code_from entries.now procedure }
{
    match entries.get(usize::from(procedure)) {
        Some(entry) => *entry,
        None => 0,
    }
}

// The entry of what a call calls, by entries, and by code numbers.
fn guessed_callee(entries: &[u32], callee: Callee) -> u32
    ensures { result ≡ callee_in entries.now callee }
{
    match callee {
        Callee::Procedure(procedure) => entry_of(entries, procedure),
        Callee::Code(_) => 0,
    }
}

fn known_callee(codes: &[u16], callee: Callee) -> u32
    ensures { result ≡ callee_in codes.now callee }
{
    match callee {
        Callee::Procedure(procedure) => u32::from(code_of(codes, procedure)),
        Callee::Code(_) => 0,
    }
}

// The word address to which a jump, a branch or a call leads, by entries, and by code numbers.
fn guessed_aim(entries: &[u32], places: &[u32], instr: &Instr) -> u32
    ensures { result ≡ aim_in entries.now places.now instr.now }
{
    match instr {
        Instr::When(_, to) => place_in(places, usize::from(*to)),
        Instr::Unless(_, to) => place_in(places, usize::from(*to)),
        Instr::Jump(to) => place_in(places, usize::from(*to)),
        Instr::Call(call) => guessed_callee(entries, call.callee),
        _ => 0,
    }
}

fn known_aim(codes: &[u16], places: &[u32], instr: &Instr) -> u32
    ensures { result ≡ aim_in codes.now places.now instr.now }
{
    match instr {
        Instr::When(_, to) => place_in(places, usize::from(*to)),
        Instr::Unless(_, to) => place_in(places, usize::from(*to)),
        Instr::Jump(to) => place_in(places, usize::from(*to)),
        Instr::Call(call) => known_callee(codes, call.callee),
        _ => 0,
    }
}

// The word address of the instruction that calls, where the code of a call begins at another one.
fn call_word(alloc: Global, locations: &Locations, at: u32, call: &Call) -> Result<u32, NoMemory>
    requires { IsCallWithin (layout locations.now) call.now }
    ensures { IfOk result (λ word. word ≡ at + widths (call_front (layout locations.now) call.now)) }
{
    let mut front = Row::new(alloc);
    put_call_front(alloc, &mut front, locations, call)?;
    behind_code(at, front.as_slice())
}

// The word address behind a jump, a branch or a call at a place that is not a far one.
fn behind_in(
    alloc: Global,
    locations: &Locations,
    places: &[u32],
    place: usize,
    instr: &Instr,
) -> Result<u64, NoMemory>
    requires place { place < 4294967296 }
    requires within { IsWithin (layout locations.now) instr.now }
    ensures is { IfOk result (λ behind. behind ≡ behind_in (layout locations.now) places.now place instr.now) }
    ensures low { IfOk result (λ behind. behind < 4294967297) }
{
    match instr {
        Instr::When(_, _) => Ok(u64::from(place_in(places, place + 1))),
        Instr::Unless(_, _) => Ok(u64::from(place_in(places, place + 1))),
        Instr::Jump(_) => Ok(u64::from(place_in(places, place)) + 1),
        Instr::Call(call) => {
            let word = call_word(alloc, locations, place_in(places, place), call)?;
            Ok(u64::from(word) + 1)
        }
        _ => Ok(0),
    }
}

// Whether a signed distance leads from one word address to another, where it has so many values below 0, and as many others.
fn is_within(half: u64, behind: u64, aim: u64) -> bool
    requires half { half < 4294967296 }
    requires behind { behind < 4294967297 }
    requires aim { aim < 4294967296 }
    ensures { result ≡ is_within half behind aim }
{
    behind < aim + half + 1 && aim < behind + half
}

fn reach_for(behind: u64, aim: u64) -> Reach
    requires behind { behind < 4294967297 }
    requires aim { aim < 4294967296 }
    ensures { result ≡ reach_for behind aim }
{
    if is_within(64, behind, aim) {
        Reach::Short
    } else if is_within(2048, behind, aim) {
        Reach::Near
    } else {
        Reach::Far
    }
}

// How far off the instruction at a place leads, where the instructions stand at these word addresses and procedures have these entries.
fn reach_in(
    alloc: Global,
    locations: &Locations,
    entries: &[u32],
    places: &[u32],
    place: usize,
    instr: &Instr,
) -> Result<Reach, NoMemory>
    requires place { place < 4294967296 }
    requires within { IsWithin (layout locations.now) instr.now }
    ensures { IfOk result (λ reach. reach ≡ reach_in (layout locations.now) entries.now places.now place instr.now) }
{
    if places.len() == 0 {
        return Ok(Reach::Far);
    }
    let behind = behind_in(alloc, locations, places, place, instr)?;
    Ok(reach_for(behind, u64::from(guessed_aim(entries, places, instr))))
}

// The signed distances from one word address to another: of seven bits, and of twelve.
fn short_offset(behind: u64, aim: u64) -> NearOffset
    ensures { result ≡ offset_to 128 behind aim }
{
    let distance = (aim % 128 + (128 - behind % 128)) % 128;
    NearOffset::new(distance as u8)
}

fn far_offset(behind: u64, aim: u64) -> FarOffset
    ensures { result ≡ offset_to 4096 behind aim }
{
    let distance = (aim % 4096 + (4096 - behind % 4096)) % 4096;
    FarOffset::new(distance as u16)
}

fn word_of(aim: u64) -> u16
    ensures { result ≡ aim % 65536 }
{
    (aim % 65536) as u16
}

fn hop_for(reach: Reach, behind: u64, aim: u64) -> Hop
    ensures { result ≡ hop_for reach behind aim }
{
    match reach {
        Reach::Short => Hop::Near(far_offset(behind, aim)),
        Reach::Near => Hop::Near(far_offset(behind, aim)),
        Reach::Far => Hop::Far(word_of(aim)),
    }
}

fn turn_for(reach: Reach, behind: u64, aim: u64) -> Turn
    ensures { result ≡ turn_for reach behind aim }
{
    match reach {
        Reach::Short => Turn::Direct(short_offset(behind, aim)),
        Reach::Near => Turn::Past(Hop::Near(far_offset(behind, aim))),
        Reach::Far => Turn::Past(Hop::Far(word_of(aim))),
    }
}

fn way_for(reach: Reach, behind: u64, aim: u64) -> Way
    ensures { result ≡ way_for reach behind aim }
{
    match reach {
        Reach::Short => Way::Near(far_offset(behind, aim)),
        Reach::Near => Way::Near(far_offset(behind, aim)),
        Reach::Far => Way::Far(word_of(aim)),
    }
}

/// Where each of these instructions leads: as far off as it would if they began at the word addresses that are guessed, and procedures had these entries,
/// and far off where no word addresses are. They begin at `places`, and the procedures have these code numbers. The error is want of memory: no memory has
/// room for 2^32 instructions.
pub fn leadings(
    alloc: Global,
    locations: &Locations,
    entries: &[u32],
    guessed: &[u32],
    codes: &[u16],
    places: &[u32],
    idle: u16,
    instrs: &[Instr],
) -> Result<Row<Leading>, NoMemory>
    requires { (pc : ℕ) (i : InstrValue) → slice_get instrs.now pc ≡ Some i → IsWithin (layout locations.now) i }
    ensures { IfOk result (λ row. row
        ≡ helds_upto (layout locations.now) (sites entries.now guessed.now codes.now places.now idle) instrs.now (length instrs.now)) }
{
    if instrs.len() > 4_294_967_295 {
        return Err(NoMemory);
    }
    let mut row = Row::new(alloc);
    for place in 0..instrs.len() {
        let instr = &instrs[place];
        let reach = reach_in(alloc, locations, entries, guessed, place, instr)?;
        let behind = behind_in(alloc, locations, places, place, instr)?;
        let aim = u64::from(known_aim(codes, places, instr));
        row.push(Leading {
            jump: hop_for(reach, behind, aim),
            branch: turn_for(reach, behind, aim),
            call: way_for(reach, behind, aim),
            idle,
        })?;
    }
    Ok(row)
}
