// Where all locals of a procedure lie.
ghost use Rattle.std.specs.Prelude.{◌≡◌, ◌+◌, ◌<◌, ◌≤◌, ◌++◌, IfOk, OnOk, drop, length, take};
ghost use Rattle.vg_templates.specs.Calls.{sum_of};
ghost use Rattle.vg_templates.specs.Layouts.{IsLayout};
ghost use Rattle.vg_templates.specs.Living.{lasts};
ghost use Rattle.vg_templates.specs.Framed.{taken, registers_from, is_pointed, all_taken, saved_for, framed};
ghost use Rattle.vg_alloc.specs.Frames.{taken_of, pushed_spots, held_spots, all_located, code_located};
ghost use Rattle.vg_alloc.specs.Locations.{layout, CanArrive};

use crate::locations::Locations;
use crate::parameters::{arriving, bytes_of, on_stack};
use crate::seats::{Taken, put_seats};
use crate::spot::Spot;
use avr_instr::Register;
use std::alloc::Global;
use vg_base::{NoMemory, Row};
use vg_lin::{Instr, LinProc};

/// The locations that keep each local of a procedure in bytes that it shares with no other one. Parameters that were pushed lie where they were pushed. Of the
/// other locals, those whose values are wanted behind a call lie in r2 to r7, and the rest in r8 to r17 or, where there is no more room, in r2 to r7 as well; and
/// where there is none there either they lie in slots of the frame, one behind the other. The error is want of memory.
pub fn frames(alloc: Global, procedure: &LinProc) -> Result<Locations, NoMemory>
    ensures layout { IfOk result (λ l. layout l ≡ framed procedure.now) }
    ensures widths { IfOk result (λ l. l.widths ≡ procedure.now.widths) }
{
    procedure.keeps();
    located(
        alloc,
        procedure.code(),
        procedure.widths(),
        procedure.params(),
    )
}

// Those of code whose first locals, so many, are parameters.
fn located(alloc: Global, code: &[Instr], widths: &[u8], params: u8) -> Result<Locations, NoMemory>
    requires params { params ≤ length widths.now }
    requires few { length widths.now < 256 }
    requires all { sum_of widths.now < 0x1000 }
    requires sound { IsLayout (layout (code_located code.now widths.now params)) }
    ensures { IfOk result (λ l. l ≡ code_located code.now widths.now params) }
{
    let arrives = arriving(alloc, code, widths, params)?;
    let pushed = on_stack(widths, params);
    laid(alloc, code, widths, pushed, arrives)
}

// The same where so many of them are pushed, and the others arrive so.
fn laid(
    alloc: Global,
    code: &[Instr],
    widths: &[u8],
    params: u8,
    arrives: Row<bool>,
) -> Result<Locations, NoMemory>
    requires params { params ≤ length widths.now }
    requires few { length widths.now < 256 }
    requires all { sum_of widths.now < 0x1000 }
    requires pushed { sum_of (take params widths.now) < 0x1000 }
    requires others { sum_of (drop params widths.now) < 0x1000 }
    requires arriving { CanArrive widths.now arrives }
    requires sound { IsLayout (layout (all_located (lasts code.now) arrives widths.now params)) }
    ensures { IfOk result (λ l. l ≡ all_located (lasts code.now) arrives widths.now params) }
{
    let count = usize::from(params);
    let parameters = &widths[..count];
    let mut others = Row::new(alloc);
    let none = Taken {
        lasting: 0,
        passing: 0,
        slots: 0,
    };
    let taken = put_seats(alloc, &mut others, code, params, &widths[count..], none)?;
    let spots = all_spots(alloc, taken, parameters, others.as_slice())?;
    let pointed = is_pointed(params, taken.slots);
    let saved = saved_registers(alloc, pointed, taken.lasting)?;
    let copy = Row::from_slice(alloc, widths)?;
    let pushed = bytes_of(parameters);
    Ok(Locations::new(copy, spots, taken.slots, saved, pointed, pushed, arrives))
}

// Whether Y is the frame pointer.
fn is_pointed(params: u8, slots: u16) -> bool
    ensures { result ≡ is_pointed params slots }
{
    params > 0 || slots > 0
}

// The spots of all locals: those that were pushed, and the others.
fn all_spots(
    alloc: Global,
    taken: Taken,
    parameters: &[u8],
    others: &[Spot],
) -> Result<Row<Spot>, NoMemory>
    requires pushed { sum_of parameters.now < 0x1000 }
    requires few { taken.lasting < 7 }
    requires slots { taken.slots < 0x1000 }
    ensures { IfOk result (λ spots. spots ≡ pushed_spots (taken.slots + taken.lasting + 4) parameters.now ++ others.now) }
{
    let mut spots = Row::new(alloc);
    put_parameters(
        &mut spots,
        taken.slots + u16::from(taken.lasting) + 4,
        parameters,
    )?;
    for spot in others {
        spots.push(*spot)?;
    }
    Ok(spots)
}

// The saved registers: those of Y, where it is the frame pointer, and those of locals, so many.
fn saved_registers(alloc: Global, pointed: bool, count: u8) -> Result<Row<Register>, NoMemory>
    requires { count < 17 }
    ensures { IfOk result (λ saved. saved ≡ saved_for pointed count) }
{
    let mut saved = Row::new(alloc);
    if pointed {
        saved.push(Register::new(28))?;
        saved.push(Register::new(29))?;
    }
    put_registers(&mut saved, 2, count)?;
    Ok(saved)
}

// So many registers, from this one on.
fn put_registers(registers: &mut Row<Register>, first: u8, count: u8) -> Result<(), NoMemory>
    requires { first + count < 32 }
    ensures { OnOk result (registers.new ≡ registers.old ++ registers_from first count) }
{
    if count == 0 {
        return Ok(());
    }
    registers.push(Register::new(first))?;
    put_registers(registers, first + 1, count - 1)
}

// The spots of parameters, which lie behind so many bytes of the frame.
fn put_parameters(spots: &mut Row<Spot>, front: u16, widths: &[u8]) -> Result<(), NoMemory>
    requires front { front < 0x2000 }
    requires small { sum_of widths.now < 0x1000 }
    ensures { OnOk result (spots.new ≡ spots.old ++ pushed_spots front widths.now) }
{
    match widths {
        [] => Ok(()),
        [_, rest @ ..] => {
            spots.push(Spot::Frame(front + bytes_of(rest)))?;
            put_parameters(spots, front, rest)
        }
    }
}
