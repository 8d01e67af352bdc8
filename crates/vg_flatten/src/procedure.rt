// Procedures, flattened.
ghost use Rattle.std.specs.Prelude.{if◌then◌else◌, ◌↔◌, ◌≡◌, ◌+◌, ◌-◌, ◌≤◌, ◌++◌, ◌∷◌, [], true, false, map, length, nat_le, replicate, IfOk, IfSome, OnOk, IsTrue, Some, None};
ghost use Rattle.std.specs.List.{AllByRecursion};
ghost use Rattle.vg_firm.specs.Held.{procedure_of, code_of};
ghost use Rattle.vg_lin.specs.Sound.{IsWidth};
ghost use Rattle.vg_flatten_shapes.specs.Blocks.{Block, open_code};
ghost use Rattle.vg_flatten.specs.Flattened.{IsFlat, zero_list, receivers, own_widths, own_params, with_receiver_width, widened, wide_params, all_widths, result_width};
ghost use Rattle.vg_flatten.specs.Flattened.{main_args, whole, start_of, temps_for};
ghost use Rattle.vg_flatten.specs.Searching.{made_with, NeedsAsMany, HomesNeverDo, IsBest, IsFound};
ghost use Rattle.vg_flatten.specs.Searching.{pushed_as, NeedsAsManyPushed, IsBestPushed, IsFoundPushed};
ghost use Rattle.vg_flatten_shapes.specs.Blocks.{set_in};
ghost use Rattle.vg_flatten.specs.Sealing.{Seals, Wholes};
ghost use Rattle.vg_lin.specs.Onward.{all_lead_on};
ghost use Rattle.vg_flatten.specs.Loops.{has_loop};
ghost use Rattle.vg_flatten.specs.Refusals.{made_of, stacked_of, IsTooLong, IsRefusedIn, IsRefusedFor};
ghost use Rattle.vg_flatten.specs.Taking.{IsTaken};
ghost use Rattle.vg_flatten.specs.Sizes.{procedure_size};
ghost use Rattle.vg_flatten.specs.Calls.{calls_in, calls_of};
ghost use Rattle.vg_firm_typed.specs.Typed.{IsTyped};
ghost use Rattle.vg_flatten_control.specs.Flat.{flat};
ghost use Rattle.vg_flatten_pushed.specs.Stacked.{stacked};
ghost use Rattle.vg_flatten_shapes.specs.Shapes.{empty};
ghost use Rattle.vg_flatten_shapes.specs.Made.{Refused};
ghost use Rattle.vg_flatten_shapes.specs.declared.fault.Fault.TheVariants.{TooHigh};

use std::alloc::Global;
use vg_base::{NoMemory, Refusal, Row};
use vg_firm::Procedure;
use vg_flatten_control::flat::flat;
use vg_flatten_shapes::{Fault, Homes, Layout, Open, Room, append, place_behind};
use vg_flatten_stacked::stacked;
use vg_lin::{Call, Callee, Instr, LinProc, Operand, Passed, Plain, Registers};

/// The procedure with which a run begins: it calls main, and then idles for ever. Main may get a receiver, which it does not use.
pub fn start(alloc: Global, main: u16, receives: bool) -> Result<LinProc, NoMemory>
    ensures { IfOk result (λ p. p ≡ start_of main receives) }
{
    let mut code = Row::new(alloc);
    code.push(Instr::Call(Call {
        callee: Callee::Procedure(main),
        pushed: 0,
        registers: main_args(receives),
        to: None,
    }))?;
    code.push(Instr::Idle)?;
    code.push(Instr::Jump(1))?;
    Ok(LinProc::new(None, 0, 0, Row::new(alloc), code))
}

fn main_args(receives: bool) -> Registers
    ensures { result ≡ main_args receives }
{
    if receives {
        Registers::One(Passed {
            width: 2,
            value: Operand::Known(0),
        })
    } else {
        Registers::Empty
    }
}

/// The instructions that set so many locals from one on to 0.
fn zeroes(alloc: Global, count: u8, from: u8) -> Result<Row<Open>, NoMemory>
    requires { from + count ≤ 252 }
    ensures { IfOk result (λ code. code ≡ zero_list count from) }
{
    let mut code = Row::new(alloc);
    for local in from..from + count {
        code.push(Open::Set(Instr::Plain(Plain::Copy(local, Operand::Known(0)))))?;
    }
    Ok(code)
}

/// The instructions, where no jump out of a loop is left.
fn sealed(alloc: Global, code: &[Open]) -> Result<Row<Instr>, Refusal<Fault>>
    ensures { Seals result code.now }
{
    let mut instrs = Row::new(alloc);
    for instr in code {
        match instr {
            Open::Set(set) => instrs.push(*set)?,
            Open::Break => return Err(Refusal::Fault(Fault::NotTaken)),
            Open::Continue => return Err(Refusal::Fault(Fault::NotTaken)),
        }
    }
    Ok(instrs)
}

/// The code of a whole procedure: the locals that are no parameters are 0 at first, and the end of the body gives 0 back.
fn whole_code(
    alloc: Global,
    layout: &Layout,
    room: Room,
    procedure: &Procedure,
) -> Result<Row<Open>, Refusal<Fault>>
    requires room { room.locals + room.temps ≤ 252 }
    requires receiver { room.receiver ≡ receivers procedure.now.receives }
    requires on_objects { room.on_objects ≡ procedure.now.on_objects }
    requires locals { room.locals ≡ length (own_widths (procedure_of procedure.now)) }
    requires given { room.result ≡ result_width (procedure_of procedure.now) }
    requires params { procedure.now.params ≤ length procedure.now.widths }
    ensures { Wholes result (flat layout.now room (code_of procedure.now.body) empty) (procedure_of procedure.now) }
{
    let params = room.receiver + procedure.params;
    let first = zeroes(alloc, room.locals - params, params)?;
    let at = place_behind(0, first.len())?;
    let body = flat(alloc, layout, room, at, &procedure.body, Homes::new(alloc))?;
    if !body.homes.is_empty() {
        return Err(Refusal::Fault(Fault::NotTaken));
    }
    let mut rest = body.code;
    rest.push(Open::Set(Instr::Return(room.result, Operand::Known(0))))?;
    Ok(append(first, rest.as_slice())?)
}

/// The same where the oldest values that wait are pushed, so many of them at most.
fn pushed_code(
    alloc: Global,
    layout: &Layout,
    room: Room,
    most: u16,
    procedure: &Procedure,
) -> Result<Row<Open>, Refusal<Fault>>
    requires room { room.locals + room.temps ≤ 252 }
    requires receiver { room.receiver ≡ receivers procedure.now.receives }
    requires on_objects { room.on_objects ≡ procedure.now.on_objects }
    requires locals { room.locals ≡ length (own_widths (procedure_of procedure.now)) }
    requires given { room.result ≡ result_width (procedure_of procedure.now) }
    requires params { procedure.now.params ≤ length procedure.now.widths }
    ensures { Wholes result (stacked layout.now room most (code_of procedure.now.body) empty) (procedure_of procedure.now) }
{
    let params = room.receiver + procedure.params;
    let first = zeroes(alloc, room.locals - params, params)?;
    let at = place_behind(0, first.len())?;
    let body = stacked(
        alloc,
        layout,
        room,
        most,
        at,
        &procedure.body,
        Homes::new(alloc),
    )?;
    if !body.homes.is_empty() {
        return Err(Refusal::Fault(Fault::NotTaken));
    }
    let mut rest = body.code;
    rest.push(Open::Set(Instr::Return(room.result, Operand::Known(0))))?;
    Ok(append(first, rest.as_slice())?)
}

/// How many of the first locals are a receiver.
fn receivers(receives: bool) -> u8
    ensures { result ≡ receivers receives }
{
    if receives { 1 } else { 0 }
}

/// How many of the parameters behind a receiver have four bytes: all of a procedure that gets one.
fn wide_params(procedure: &Procedure) -> u8
    ensures { result ≡ wide_params (procedure_of procedure.now) }
{
    if procedure.receives {
        procedure.params
    } else {
        0
    }
}

/// How many bytes a result has: four of a procedure that gets a receiver.
fn result_width(procedure: &Procedure) -> u8
    ensures { result ≡ result_width (procedure_of procedure.now) }
{
    if procedure.receives {
        4
    } else {
        procedure.result
    }
}

/// The widths with that of a receiver before them.
fn with_receiver_width(alloc: Global, receives: bool, widths: &[u8]) -> Result<Row<u8>, NoMemory>
    ensures { IfOk result (λ row. row ≡ with_receiver_width receives widths.now) }
{
    let mut row = Row::new(alloc);
    if receives {
        row.push(2)?;
    }
    row.append(widths)?;
    Ok(row)
}

/// The widths of the locals, and of so many temporaries behind them.
fn with_temps(widths: Row<u8>, temps: u8) -> Result<Row<u8>, NoMemory>
    ensures { IfOk result (λ row. row ≡ widths ++ replicate temps 4) }
{
    let mut row = widths;
    for _temp in 0..temps {
        row.push(4)?;
    }
    Ok(row)
}

/// The widths of which so many first ones are four bytes.
fn widened(alloc: Global, count: u8, widths: &[u8]) -> Result<Row<u8>, NoMemory>
    requires { count ≤ length widths.now }
    ensures { IfOk result (λ row. row ≡ widened count widths.now) }
{
    let mut row = with_temps(Row::new(alloc), count)?;
    row.append(&widths[count as usize..])?;
    Ok(row)
}

/// The widths of its locals: two bytes for a receiver, and four for each parameter behind it.
fn all_widths(alloc: Global, procedure: &Procedure) -> Result<Row<u8>, NoMemory>
    requires { procedure.now.params ≤ length procedure.now.widths }
    ensures { IfOk result (λ row. row ≡ all_widths (procedure_of procedure.now)) }
{
    let wide = wide_params(procedure);
    let widths = widened(alloc, wide, procedure.widths.as_slice())?;
    with_receiver_width(alloc, procedure.receives, widths.as_slice())
}

/// As many temporaries as there is room for beside so many locals.
fn temps_beside(locals: u8) -> u8
    requires { locals ≤ 252 }
    ensures few { locals + result ≤ 252 }
    ensures is { result ≡ temps_for locals }
{
    252 - locals
}

/// A procedure as linear code, in a program whose columns stand so and of whose procedures these get a receiver.
///
/// It refuses what it does not take. Where more values wait at one time than there are temporaries, which are 252 less the locals, or where it
/// would be too long, the oldest values that wait are pushed, and no more of them than there must be, up to 65,535: `TooHigh` is left for more
/// than 252 locals, for a step that takes more values than there are temporaries less two, or where more values wait than so many and the
/// temporaries; `TooLong` for what there would be more than 65,519 instructions of in either way. Where it does with so many temporaries and
/// with each larger number, there are no more than that. Of a typed procedure it takes each step, and each value finds a temporary: then the
/// only cause but want of memory is its length. The calls of the procedure stand in its code, each once and in their order, and no other; it
/// has at most 252 locals, and a jump back only where its body has a loop.
pub fn flatten(
    alloc: Global,
    layout: &Layout,
    procedure: &Procedure,
) -> Result<LinProc, Refusal<Fault>>
    requires params { procedure.now.params ≤ length procedure.now.widths }
    requires widths { AllByRecursion IsWidth procedure.now.widths }
    requires given { procedure.now.result ≤ 4 }
    ensures flat { IfOk result (λ p. IsFlat layout.now (procedure_of procedure.now) p) }
    ensures onward { IfOk result (λ p. has_loop (code_of procedure.now.body) ≡ false → all_lead_on 0 p.code ≡ true) }
    ensures refusal { IsRefusedFor result layout.now (procedure_of procedure.now) }
    ensures short { IfOk result (λ p. length p.code ≤ procedure_size (procedure_of procedure.now)) }
    ensures calls { IfOk result (λ p. calls_in p.code ≡ calls_of (code_of procedure.now.body)) }
    ensures few { IfOk result (λ p. length p.widths ≤ 252) }
    ensures typed { IsTyped layout.now (procedure_of procedure.now) → IsTaken result layout.now (procedure_of procedure.now) }
{
    flattened(alloc, layout, procedure)
}

fn flattened(
    alloc: Global,
    layout: &Layout,
    procedure: &Procedure,
) -> Result<LinProc, Refusal<Fault>>
    requires params { procedure.now.params ≤ length procedure.now.widths }
    requires widths { AllByRecursion IsWidth procedure.now.widths }
    requires given { procedure.now.result ≤ 4 }
    ensures flat { IfOk result (λ p. IsFlat layout.now (procedure_of procedure.now) p) }
    ensures onward { IfOk result (λ p. has_loop (code_of procedure.now.body) ≡ false → all_lead_on 0 p.code ≡ true) }
    ensures few { IfOk result (λ p. length p.widths ≤ 252) }
    ensures refusal { IsRefusedFor result layout.now (procedure_of procedure.now) }
{
    let own = with_receiver_width(alloc, procedure.receives, procedure.widths.as_slice())?;
    let count = own.len();
    if count > 252 {
        return Err(Refusal::Fault(Fault::TooHigh));
    }
    let most = temps_beside(count as u8);
    match with_fewest(alloc, layout, procedure, own.as_slice(), 0, most, None)? {
        Some(made) => Ok(made),
        None => with_most(alloc, layout, procedure, own.as_slice(), most),
    }
}

/// The procedure with as few temporaries as it can do with, from so many on and fewer than so many, so that no local is there for nothing;
/// or the best so far. The number is found by halves: it is the least where homes do from some number of temporaries on.
fn with_fewest(
    alloc: Global,
    layout: &Layout,
    procedure: &Procedure,
    own: &[u8],
    low: u8,
    high: u8,
    best: Option<LinProc>,
) -> Result<Option<LinProc>, NoMemory>
    requires params { procedure.now.params ≤ length procedure.now.widths }
    requires widths { AllByRecursion IsWidth procedure.now.widths }
    requires given { procedure.now.result ≤ 4 }
    requires own { own.now ≡ own_widths (procedure_of procedure.now) }
    requires room { length own.now + high ≤ 252 }
    requires low { NeedsAsMany layout.now (procedure_of procedure.now) low }
    requires best { IsBest layout.now (procedure_of procedure.now) (temps_for (length own.now)) high best }
    requires onward { IfSome best (λ p. has_loop (code_of procedure.now.body) ≡ false → all_lead_on 0 p.code ≡ true) }
    requires few { IfSome best (λ p. length p.widths ≤ 252) }
    ensures flat { IfOk result (λ found. IsFound layout.now (procedure_of procedure.now) (temps_for (length own.now)) found) }
    ensures onward { IfOk result (λ found. IfSome found (λ p. has_loop (code_of procedure.now.body) ≡ false → all_lead_on 0 p.code ≡ true)) }
    ensures few { IfOk result (λ found. IfSome found (λ p. length p.widths ≤ 252)) }
{
    if low >= high {
        return Ok(best);
    }
    let middle = low + (high - low) / 2;
    match flattened_with(alloc, layout, procedure, own, middle) {
        Ok(made) => with_fewest(alloc, layout, procedure, own, low, middle, Some(made)),
        Err(Refusal::NoMemory) => Err(NoMemory),
        Err(Refusal::Fault(_why)) => with_fewest(
            alloc,
            layout,
            procedure,
            own,
            middle + 1,
            high,
            best,
        ),
    }
}

/// The procedure with all temporaries that there is room for; where more values wait, or where it is too long, the oldest are pushed.
fn with_most(
    alloc: Global,
    layout: &Layout,
    procedure: &Procedure,
    own: &[u8],
    temps: u8,
) -> Result<LinProc, Refusal<Fault>>
    requires params { procedure.now.params ≤ length procedure.now.widths }
    requires widths { AllByRecursion IsWidth procedure.now.widths }
    requires given { procedure.now.result ≤ 4 }
    requires own { own.now ≡ own_widths (procedure_of procedure.now) }
    requires room { length own.now + temps ≤ 252 }
    requires all { temps ≡ temps_for (length own.now) }
    requires needed { NeedsAsMany layout.now (procedure_of procedure.now) temps }
    ensures flat { IfOk result (λ p. IsFlat layout.now (procedure_of procedure.now) p) }
    ensures onward { IfOk result (λ p. has_loop (code_of procedure.now.body) ≡ false → all_lead_on 0 p.code ≡ true) }
    ensures few { IfOk result (λ p. length p.widths ≤ 252) }
    ensures refusal { IsRefusedFor result layout.now (procedure_of procedure.now) }
{
    match flattened_with(alloc, layout, procedure, own, temps) {
        Ok(made) => Ok(made),
        Err(Refusal::NoMemory) => Err(Refusal::NoMemory),
        Err(Refusal::Fault(Fault::NotTaken)) => Err(Refusal::Fault(Fault::NotTaken)),
        Err(Refusal::Fault(Fault::TooLong)) => {
            pushed_where_long(alloc, layout, procedure, own, temps)
        }
        Err(Refusal::Fault(Fault::TooHigh)) => {
            pushed_with_most(alloc, layout, procedure, own, temps)
        }
    }
}

/// The same where it is too long otherwise: it is refused as such, unless it is taken so.
fn pushed_where_long(
    alloc: Global,
    layout: &Layout,
    procedure: &Procedure,
    own: &[u8],
    temps: u8,
) -> Result<LinProc, Refusal<Fault>>
    requires params { procedure.now.params ≤ length procedure.now.widths }
    requires widths { AllByRecursion IsWidth procedure.now.widths }
    requires given { procedure.now.result ≤ 4 }
    requires own { own.now ≡ own_widths (procedure_of procedure.now) }
    requires room { length own.now + temps ≤ 252 }
    requires all { temps ≡ temps_for (length own.now) }
    requires long { IsTooLong (procedure_of procedure.now) (made_of layout.now (procedure_of procedure.now)) }
    ensures flat { IfOk result (λ p. IsFlat layout.now (procedure_of procedure.now) p) }
    ensures onward { IfOk result (λ p. has_loop (code_of procedure.now.body) ≡ false → all_lead_on 0 p.code ≡ true) }
    ensures few { IfOk result (λ p. length p.widths ≤ 252) }
    ensures refusal { IsRefusedFor result layout.now (procedure_of procedure.now) }
{
    match pushed_with_fewest(alloc, layout, procedure, own, temps) {
        Ok(made) => Ok(made),
        Err(Refusal::NoMemory) => Err(Refusal::NoMemory),
        Err(Refusal::Fault(_why)) => Err(Refusal::Fault(Fault::TooLong)),
    }
}

/// The same where more values wait than there are temporaries.
fn pushed_with_most(
    alloc: Global,
    layout: &Layout,
    procedure: &Procedure,
    own: &[u8],
    temps: u8,
) -> Result<LinProc, Refusal<Fault>>
    requires params { procedure.now.params ≤ length procedure.now.widths }
    requires widths { AllByRecursion IsWidth procedure.now.widths }
    requires given { procedure.now.result ≤ 4 }
    requires own { own.now ≡ own_widths (procedure_of procedure.now) }
    requires room { length own.now + temps ≤ 252 }
    requires all { temps ≡ temps_for (length own.now) }
    requires high { made_of layout.now (procedure_of procedure.now) ≡ Refused TooHigh }
    ensures flat { IfOk result (λ p. IsFlat layout.now (procedure_of procedure.now) p) }
    ensures onward { IfOk result (λ p. has_loop (code_of procedure.now.body) ≡ false → all_lead_on 0 p.code ≡ true) }
    ensures few { IfOk result (λ p. length p.widths ≤ 252) }
    ensures refusal { IsRefusedFor result layout.now (procedure_of procedure.now) }
{
    pushed_with_fewest(alloc, layout, procedure, own, temps)
}

/// The procedure where the oldest values that wait are pushed, and no more of them than there must be.
fn pushed_with_fewest(
    alloc: Global,
    layout: &Layout,
    procedure: &Procedure,
    own: &[u8],
    temps: u8,
) -> Result<LinProc, Refusal<Fault>>
    requires params { procedure.now.params ≤ length procedure.now.widths }
    requires widths { AllByRecursion IsWidth procedure.now.widths }
    requires given { procedure.now.result ≤ 4 }
    requires own { own.now ≡ own_widths (procedure_of procedure.now) }
    requires room { length own.now + temps ≤ 252 }
    requires all { temps ≡ temps_for (length own.now) }
    requires homes { HomesNeverDo layout.now (procedure_of procedure.now) }
    ensures flat { IfOk result (λ p. IsFlat layout.now (procedure_of procedure.now) p) }
    ensures onward { IfOk result (λ p. has_loop (code_of procedure.now.body) ≡ false → all_lead_on 0 p.code ≡ true) }
    ensures few { IfOk result (λ p. length p.widths ≤ 252) }
    ensures cause { IsRefusedIn result (procedure_of procedure.now) (stacked_of layout.now (procedure_of procedure.now)) }
{
    match with_fewest_pushed(alloc, layout, procedure, own, temps, 1, 65535, None)? {
        Some(made) => Ok(made),
        None => pushed_with(alloc, layout, procedure, own, temps, 65535),
    }
}

/// The procedure with as few pushed values as it can do with, from so many on and fewer than so many; or the best so far. The number is found
/// by halves: it is the least where pushing does from some number of values on.
fn with_fewest_pushed(
    alloc: Global,
    layout: &Layout,
    procedure: &Procedure,
    own: &[u8],
    temps: u8,
    low: u16,
    high: u16,
    best: Option<LinProc>,
) -> Result<Option<LinProc>, NoMemory>
    requires params { procedure.now.params ≤ length procedure.now.widths }
    requires widths { AllByRecursion IsWidth procedure.now.widths }
    requires given { procedure.now.result ≤ 4 }
    requires own { own.now ≡ own_widths (procedure_of procedure.now) }
    requires room { length own.now + temps ≤ 252 }
    requires all { temps ≡ temps_for (length own.now) }
    requires homes { HomesNeverDo layout.now (procedure_of procedure.now) }
    requires one { 1 ≤ low }
    requires low { NeedsAsManyPushed layout.now (procedure_of procedure.now) low }
    requires best { IsBestPushed layout.now (procedure_of procedure.now) 65535 high best }
    requires onward { IfSome best (λ p. has_loop (code_of procedure.now.body) ≡ false → all_lead_on 0 p.code ≡ true) }
    requires few { IfSome best (λ p. length p.widths ≤ 252) }
    ensures flat { IfOk result (λ found. IsFoundPushed layout.now (procedure_of procedure.now) 65535 found) }
    ensures onward { IfOk result (λ found. IfSome found (λ p. has_loop (code_of procedure.now.body) ≡ false → all_lead_on 0 p.code ≡ true)) }
    ensures few { IfOk result (λ found. IfSome found (λ p. length p.widths ≤ 252)) }
{
    if low >= high {
        return Ok(best);
    }
    let middle = low + (high - low) / 2;
    match pushed_with(alloc, layout, procedure, own, temps, middle) {
        Ok(made) => with_fewest_pushed(
            alloc,
            layout,
            procedure,
            own,
            temps,
            low,
            middle,
            Some(made),
        ),
        Err(Refusal::NoMemory) => Err(NoMemory),
        Err(Refusal::Fault(_why)) => with_fewest_pushed(
            alloc,
            layout,
            procedure,
            own,
            temps,
            middle + 1,
            high,
            best,
        ),
    }
}

/// The procedure with so many temporaries behind its own locals.
fn flattened_with(
    alloc: Global,
    layout: &Layout,
    procedure: &Procedure,
    own: &[u8],
    temps: u8,
) -> Result<LinProc, Refusal<Fault>>
    requires params { procedure.now.params ≤ length procedure.now.widths }
    requires widths { AllByRecursion IsWidth procedure.now.widths }
    requires given { procedure.now.result ≤ 4 }
    requires own { own.now ≡ own_widths (procedure_of procedure.now) }
    requires room { length own.now + temps ≤ 252 }
    ensures flat { IfOk result (λ p. NeedsAsMany layout.now (procedure_of procedure.now) temps → IsFlat layout.now (procedure_of procedure.now) p) }
    ensures onward { IfOk result (λ p. has_loop (code_of procedure.now.body) ≡ false → all_lead_on 0 p.code ≡ true) }
    ensures few { IfOk result (λ p. length p.widths ≤ 252) }
    ensures cause { IsRefusedIn result (procedure_of procedure.now) (made_with temps layout.now (procedure_of procedure.now)) }
    ensures refusal { temps ≡ temps_for (length own.now) → IsRefusedIn result (procedure_of procedure.now) (made_of layout.now (procedure_of procedure.now)) }
{
    let receiver = receivers(procedure.receives);
    let count = own.len();
    let locals = count as u8;
    let given = result_width(procedure);
    let room = Room {
        receiver,
        on_objects: procedure.on_objects,
        locals,
        temps,
        result: given,
    };
    let code = whole_code(alloc, layout, room, procedure)?;
    let instrs = sealed(alloc, code.as_slice())?;
    let params = receiver + procedure.params;
    let widths = with_temps(all_widths(alloc, procedure)?, temps)?;
    let made = LinProc::new(Some(procedure.method), params, given, widths, instrs);
    made.keeps();
    Ok(made)
}

/// The same where the oldest values that wait are pushed, so many of them at most.
fn pushed_with(
    alloc: Global,
    layout: &Layout,
    procedure: &Procedure,
    own: &[u8],
    temps: u8,
    pushes: u16,
) -> Result<LinProc, Refusal<Fault>>
    requires params { procedure.now.params ≤ length procedure.now.widths }
    requires widths { AllByRecursion IsWidth procedure.now.widths }
    requires given { procedure.now.result ≤ 4 }
    requires own { own.now ≡ own_widths (procedure_of procedure.now) }
    requires room { length own.now + temps ≤ 252 }
    requires all { temps ≡ temps_for (length own.now) }
    requires homes { HomesNeverDo layout.now (procedure_of procedure.now) }
    requires one { 1 ≤ pushes }
    ensures flat { IfOk result (λ p. NeedsAsManyPushed layout.now (procedure_of procedure.now) pushes → IsFlat layout.now (procedure_of procedure.now) p) }
    ensures onward { IfOk result (λ p. has_loop (code_of procedure.now.body) ≡ false → all_lead_on 0 p.code ≡ true) }
    ensures few { IfOk result (λ p. length p.widths ≤ 252) }
    ensures cause { IsRefusedIn result (procedure_of procedure.now) (pushed_as pushes layout.now (procedure_of procedure.now)) }
{
    let receiver = receivers(procedure.receives);
    let count = own.len();
    let locals = count as u8;
    let given = result_width(procedure);
    let room = Room {
        receiver,
        on_objects: procedure.on_objects,
        locals,
        temps,
        result: given,
    };
    let code = pushed_code(alloc, layout, room, pushes, procedure)?;
    let instrs = sealed(alloc, code.as_slice())?;
    let params = receiver + procedure.params;
    let widths = with_temps(all_widths(alloc, procedure)?, temps)?;
    let made = LinProc::new(Some(procedure.method), params, given, widths, instrs);
    made.keeps();
    Ok(made)
}
