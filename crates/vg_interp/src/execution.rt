// Code, loops and calls.
ghost use Rattle.vg_meaning.specs.Code as structure;
ghost use Rattle.std.specs.Prelude.{◌≡◌, ◌*◌, ◌+◌, ◌-◌, ◌<◌, ◌≤◌, ℕ, length};
ghost use Rattle.vg_meaning.specs.Answer.{Piece, and_then};
ghost use Rattle.vg_meaning_laws.specs.Grows.{Grows};
ghost use Rattle.vg_meaning.specs.Code.{If, Loop, Nothing, Then};
ghost use Rattle.vg_meaning.specs.Calls.{returned};
ghost use Rattle.vg_meaning.specs.Clock.{ticked};
ghost use Rattle.vg_meaning.specs.History.{depth_alone};
ghost use Rattle.vg_meaning.specs.Loops.{turned, where_holds};
ghost use Rattle.vg_core.specs.declared.program.Target.TheVariants as targets;
ghost use Rattle.vg_core.specs.Heap as heap;
ghost use Rattle.vg_core.specs.HeldProgram.{body_at, code_of, code_chain, code_row, program_at};
ghost use Rattle.vg_core.specs.Meaning as meaning;
ghost use Rattle.vg_core.specs.Meaning.{put, truth};
ghost use Rattle.vg_core.specs.State.{State};
ghost use Rattle.vg_interp_run.specs.Calling.{StaysUnder};
ghost use Rattle.vg_interp_run.specs.Exits.{Comes};
ghost use Rattle.vg_interp_run.specs.Run.{state, world, Answers, IsCall};
ghost use Rattle.vg_interp.specs.Running.{calling, does, looks_up, opens, runs, Chooses, GoesOn, Shows};
ghost use Rattle.vg_interp.specs.Weights.{arm_then, arms_list, weight, whole};

use crate::bodies::{
    arm_parts, class_at, is_component, making_body, method_at, method_body, start_body,
};
use crate::playing::Playing;
use vg_core::{Body, Code, CoreType, CoreValue, Program, Step, Target};
use vg_interp_run::calling::{
    Call, enter, has_arguments, leave, method_call, new_object, value_call,
};
use vg_interp_run::{Exit, Signal, alone, frequent};
use vg_interp_values::default_of;
use vg_io::Sink;

/// Runs code of a program; its calls are at most so deep.
#[cycle(exec)]
#[tactic(auto, using(crate::proofs::Rows::weighing))]
pub fn exec<O: Sink>(
    play: &mut Playing,
    out: &mut O,
    program: &Program,
    most: u32,
    code: &Code,
) -> Result<(), Exit>
    ensures answers { Comes result play.new.run
        (does (program_at program.now) most (code_of code.now) (state play.old.run) (world play.old.run)) }
    ensures kept { GoesOn result play.old.run play.new.run }
    ensures puts { Shows (O.told out.old) (O.faults out.old) play.old (O.told out.new) (O.faults out.new) play.new
        (does (program_at program.now) most (code_of code.now) (state play.old.run) (world play.old.run)) }
{
    match code {
        Code::Row(codes) => row(play, out, program, most, codes.as_slice()),
        Code::Chain(codes) => chain(play, out, program, most, codes.as_slice()),
        Code::Do(step) => perform(play, out, program, most, step),
        Code::If(first, rest) => {
            if frequent::test(&mut play.run)? {
                exec(play, out, program, most, first)
            } else {
                exec(play, out, program, most, rest)
            }
        }
        Code::Arms(all, last) => arms(play, out, program, most, all.as_slice(), last),
        Code::Arm(condition, block) => arm(play, out, program, most, condition, block),
        Code::Loop(condition, body, next) => repeat(
            play, out, program, most, condition, body, next,
        ),
        Code::Break => Err(Exit::Break),
        Code::Continue => Err(Exit::Continue),
        Code::Return => Err(Exit::Return),
    }
}

// Runs one code behind another.
#[cycle(exec)]
#[tactic(auto, using(crate::proofs::Rows::weighing))]
fn row<O: Sink>(
    play: &mut Playing,
    out: &mut O,
    program: &Program,
    most: u32,
    codes: &[Code],
) -> Result<(), Exit>
    ensures answers { Comes result play.new.run
        (does (program_at program.now) most (code_row codes.now) (state play.old.run) (world play.old.run)) }
    ensures kept { GoesOn result play.old.run play.new.run }
    ensures puts { Shows (O.told out.old) (O.faults out.old) play.old (O.told out.new) (O.faults out.new) play.new
        (does (program_at program.now) most (code_row codes.now) (state play.old.run) (world play.old.run)) }
{
    for code in codes {
        part(play, out, program, most, code)?;
    }
    Ok(())
}

// Runs one code behind another, of which the last ends it.
#[cycle(exec)]
#[tactic(auto, using(crate::proofs::Rows::weighing))]
fn chain<O: Sink>(
    play: &mut Playing,
    out: &mut O,
    program: &Program,
    most: u32,
    codes: &[Code],
) -> Result<(), Exit>
    ensures answers { Comes result play.new.run
        (does (program_at program.now) most (code_chain codes.now) (state play.old.run) (world play.old.run)) }
    ensures kept { GoesOn result play.old.run play.new.run }
    ensures puts { Shows (O.told out.old) (O.faults out.old) play.old (O.told out.new) (O.faults out.new) play.new
        (does (program_at program.now) most (code_chain codes.now) (state play.old.run) (world play.old.run)) }
{
    for code in codes {
        part(play, out, program, most, code)?;
    }
    Ok(())
}

// Runs a part of a row or a chain. Most are steps, which are performed at once.
#[cycle(exec)]
#[inline(always)]
fn part<O: Sink>(
    play: &mut Playing,
    out: &mut O,
    program: &Program,
    most: u32,
    code: &Code,
) -> Result<(), Exit>
    ensures answers { Comes result play.new.run
        (does (program_at program.now) most (code_of code.now) (state play.old.run) (world play.old.run)) }
    ensures kept { GoesOn result play.old.run play.new.run }
    ensures puts { Shows (O.told out.old) (O.faults out.old) play.old (O.told out.new) (O.faults out.new) play.new
        (does (program_at program.now) most (code_of code.now) (state play.old.run) (world play.old.run)) }
{
    match code {
        Code::Do(step) => perform(play, out, program, most, step),
        Code::Row(_)
        | Code::Chain(_)
        | Code::If(_, _)
        | Code::Arms(_, _)
        | Code::Arm(_, _)
        | Code::Loop(_, _, _)
        | Code::Break
        | Code::Continue
        | Code::Return => exec(play, out, program, most, code),
    }
}

// Runs the block of the first arm whose condition holds, or what is done where none does.
#[cycle(exec)]
#[tactic(auto, using(crate::proofs::Rows::weighing))]
fn arms<O: Sink>(
    play: &mut Playing,
    out: &mut O,
    program: &Program,
    most: u32,
    all: &[Code],
    last: &Code,
) -> Result<(), Exit>
    ensures answers { Comes result play.new.run
        (does (program_at program.now) most (arms_list all.now (code_of last.now)) (state play.old.run) (world play.old.run)) }
    ensures kept { GoesOn result play.old.run play.new.run }
    ensures puts { Shows (O.told out.old) (O.faults out.old) play.old (O.told out.new) (O.faults out.new) play.new
        (does (program_at program.now) most (arms_list all.now (code_of last.now)) (state play.old.run) (world play.old.run)) }
{
    for code in all {
        let goes = match fails(play, out, program, most, code) {
            Ok(goes) => goes,
            Err(why) => return Err(why),
        };
        if !goes {
            return Ok(());
        }
    }
    exec(play, out, program, most, last)
}

// Runs the block of an arm where its condition holds, or other code: whether what comes behind it is still to be done.
#[cycle(exec)]
#[inline(always)]
#[tactic(auto, using(crate::proofs::Rows::weighing))]
fn fails<O: Sink>(
    play: &mut Playing,
    out: &mut O,
    program: &Program,
    most: u32,
    code: &Code,
) -> Result<bool, Exit>
    ensures answers { (rest : structure.Code Step) → Chooses result (does (program_at program.now) most rest) play.new.run
        (does (program_at program.now) most (arm_then code.now rest) (state play.old.run) (world play.old.run)) }
    ensures kept { GoesOn result play.old.run play.new.run }
    ensures puts { (rest : structure.Code Step) → Shows (O.told out.old) (O.faults out.old) play.old (O.told out.new) (O.faults out.new) play.new
        (does (program_at program.now) most (arm_then code.now rest) (state play.old.run) (world play.old.run)) }
{
    match arm_parts(code) {
        Some(parts) => arm_fails(play, out, program, most, parts.0, parts.1),
        None => match exec(play, out, program, most, code) {
            Ok(()) => Ok(true),
            Err(why) => Err(why),
        },
    }
}

// Runs the block of an arm where its condition holds: whether it does not.
#[cycle(exec)]
#[inline(always)]
fn arm_fails<O: Sink>(
    play: &mut Playing,
    out: &mut O,
    program: &Program,
    most: u32,
    condition: &Code,
    block: &Code,
) -> Result<bool, Exit>
    ensures answers { (rest : structure.Code Step) → Chooses result (does (program_at program.now) most rest) play.new.run
        (does (program_at program.now) most (Then (code_of condition.now) (If (code_of block.now) rest)) (state play.old.run) (world play.old.run)) }
    ensures kept { GoesOn result play.old.run play.new.run }
    ensures puts { (rest : structure.Code Step) → Shows (O.told out.old) (O.faults out.old) play.old (O.told out.new) (O.faults out.new) play.new
        (does (program_at program.now) most (Then (code_of condition.now) (If (code_of block.now) rest)) (state play.old.run) (world play.old.run)) }
{
    exec(play, out, program, most, condition)?;
    if frequent::test(&mut play.run)? {
        match exec(play, out, program, most, block) {
            Ok(()) => Ok(false),
            Err(why) => Err(why),
        }
    } else {
        Ok(true)
    }
}

// Runs an arm alone.
#[cycle(exec)]
fn arm<O: Sink>(
    play: &mut Playing,
    out: &mut O,
    program: &Program,
    most: u32,
    condition: &Code,
    block: &Code,
) -> Result<(), Exit>
    ensures answers { Comes result play.new.run
        (does (program_at program.now) most (Then (code_of condition.now) (If (code_of block.now) Nothing)) (state play.old.run) (world play.old.run)) }
    ensures kept { GoesOn result play.old.run play.new.run }
    ensures puts { Shows (O.told out.old) (O.faults out.old) play.old (O.told out.new) (O.faults out.new) play.new
        (does (program_at program.now) most (Then (code_of condition.now) (If (code_of block.now) Nothing)) (state play.old.run) (world play.old.run)) }
{
    match arm_fails(play, out, program, most, condition, block) {
        Ok(_fails) => Ok(()),
        Err(why) => Err(why),
    }
}

// Runs a loop.
#[cycle(exec)]
fn repeat<O: Sink>(
    play: &mut Playing,
    out: &mut O,
    program: &Program,
    most: u32,
    condition: &Code,
    body: &Code,
    next: &Code,
) -> Result<(), Exit>
    ensures answers { Comes result play.new.run
        (does (program_at program.now) most (Loop (code_of condition.now) (code_of body.now) (code_of next.now)) (state play.old.run) (world play.old.run)) }
    ensures kept { GoesOn result play.old.run play.new.run }
    ensures puts { Shows (O.told out.old) (O.faults out.old) play.old (O.told out.new) (O.faults out.new) play.new
        (does (program_at program.now) most (Loop (code_of condition.now) (code_of body.now) (code_of next.now)) (state play.old.run) (world play.old.run)) }
{
    let all = play.run.around.clock();
    for _turn in 0..all {
        let goes = match holds(play, out, program, most, condition) {
            Ok(goes) => goes,
            Err(why) => return Err(why),
        };
        if !goes {
            return Ok(());
        }
        let stays = match turn(play, out, program, most, body, next) {
            Ok(stays) => stays,
            Err(why) => return Err(why),
        };
        if !stays {
            return Ok(());
        }
    }
    let goes = match holds(play, out, program, most, condition) {
        Ok(goes) => goes,
        Err(why) => return Err(why),
    };
    if goes { Err(Exit::OutOfClock) } else { Ok(()) }
}

// Whether the condition of a loop holds.
#[cycle(exec)]
fn holds<O: Sink>(
    play: &mut Playing,
    out: &mut O,
    program: &Program,
    most: u32,
    condition: &Code,
) -> Result<bool, Exit>
    ensures answers { (go : Piece State ℕ) → Chooses result go play.new.run
        (where_holds (does (program_at program.now) most (code_of condition.now)) truth go (state play.old.run) (world play.old.run)) }
    ensures kept { GoesOn result play.old.run play.new.run }
    ensures puts { (go : Piece State ℕ) → Grows go → Shows (O.told out.old) (O.faults out.old) play.old (O.told out.new) (O.faults out.new) play.new
        (where_holds (does (program_at program.now) most (code_of condition.now)) truth go (state play.old.run) (world play.old.run)) }
{
    exec(play, out, program, most, condition)?;
    frequent::test(&mut play.run)
}

// One turn of a loop behind its condition: whether the loop goes on.
#[cycle(exec)]
fn turn<O: Sink>(
    play: &mut Playing,
    out: &mut O,
    program: &Program,
    most: u32,
    body: &Code,
    next: &Code,
) -> Result<bool, Exit>
    ensures answers { (rest : Piece State ℕ) → Chooses result rest play.new.run
        (ticked depth_alone (λ s w. turned (does (program_at program.now) most (code_of body.now) s w)
        (λ t v. and_then (does (program_at program.now) most (code_of next.now) t v) rest)) (state play.old.run) (world play.old.run)) }
    ensures kept { GoesOn result play.old.run play.new.run }
    ensures puts { (rest : Piece State ℕ) → Grows rest → Shows (O.told out.old) (O.faults out.old) play.old (O.told out.new) (O.faults out.new) play.new
        (ticked depth_alone (λ s w. turned (does (program_at program.now) most (code_of body.now) s w)
        (λ t v. and_then (does (program_at program.now) most (code_of next.now) t v) rest)) (state play.old.run) (world play.old.run)) }
{
    play.offer(out)?;
    play.run.around.tick()?;
    match exec(play, out, program, most, body) {
        Ok(()) => onward(play, out, program, most, next),
        Err(Exit::Continue) => onward(play, out, program, most, next),
        Err(Exit::Break) => Ok(false),
        Err(Exit::Return) => Err(Exit::Return),
        Err(Exit::Stops) => Err(Exit::Stops),
        Err(Exit::Wants) => Err(Exit::Wants),
        Err(Exit::Touches) => Err(Exit::Touches),
        Err(Exit::Done) => Err(Exit::Done),
        Err(Exit::OutOfClock) => Err(Exit::OutOfClock),
        Err(Exit::OutOfDepth) => Err(Exit::OutOfDepth),
        Err(Exit::OutOfRoom) => Err(Exit::OutOfRoom),
        Err(Exit::Wrong) => Err(Exit::Wrong),
        Err(Exit::NoMemory) => Err(Exit::NoMemory),
    }
}

// What comes behind the body in a turn of a loop.
#[cycle(exec)]
fn onward<O: Sink>(
    play: &mut Playing,
    out: &mut O,
    program: &Program,
    most: u32,
    next: &Code,
) -> Result<bool, Exit>
    ensures answers { (rest : Piece State ℕ) → Chooses result rest play.new.run
        (and_then (does (program_at program.now) most (code_of next.now) (state play.old.run) (world play.old.run)) rest) }
    ensures kept { GoesOn result play.old.run play.new.run }
    ensures puts { (rest : Piece State ℕ) → Grows rest → Shows (O.told out.old) (O.faults out.old) play.old (O.told out.new) (O.faults out.new) play.new
        (and_then (does (program_at program.now) most (code_of next.now) (state play.old.run) (world play.old.run)) rest) }
{
    match exec(play, out, program, most, next) {
        Ok(()) => Ok(true),
        Err(why) => Err(why),
    }
}

// Performs one step.
#[cycle(exec)]
#[inline(always)]
fn perform<O: Sink>(
    play: &mut Playing,
    out: &mut O,
    program: &Program,
    most: u32,
    step: &Step,
) -> Result<(), Exit>
    ensures answers { Comes result play.new.run
        (meaning.step program.now.tables (calling (program_at program.now) most) step.now (state play.old.run) (world play.old.run)) }
    ensures kept { GoesOn result play.old.run play.new.run }
    ensures puts { Shows (O.told out.old) (O.faults out.old) play.old (O.told out.new) (O.faults out.new) play.new
        (meaning.step program.now.tables (calling (program_at program.now) most) step.now (state play.old.run) (world play.old.run)) }
{
    match step {
        Step::CallMethod(_, _, _, _)
        | Step::CallValue(_, _, _)
        | Step::CallComponent(_, _)
        | Step::NewObject(_, _, _)
        | Step::Super(_, _) => perform_call(play, out, program, most, step),
        _ => alone::perform(&mut play.run, &program.tables, step),
    }
}

// Performs a step that calls.
#[cycle(exec)]
#[inline(never)]
fn perform_call<O: Sink>(
    play: &mut Playing,
    out: &mut O,
    program: &Program,
    most: u32,
    step: &Step,
) -> Result<(), Exit>
    requires { IsCall step.now }
    ensures answers { Comes result play.new.run
        (meaning.step program.now.tables (calling (program_at program.now) most) step.now (state play.old.run) (world play.old.run)) }
    ensures kept { GoesOn result play.old.run play.new.run }
    ensures puts { Shows (O.told out.old) (O.faults out.old) play.old (O.told out.new) (O.faults out.new) play.new
        (meaning.step program.now.tables (calling (program_at program.now) most) step.now (state play.old.run) (world play.old.run)) }
{
    let tables = &program.tables;
    match step {
        Step::CallMethod(at, class, selector, count) => {
            match method_call(&mut play.run, tables, *at, *class, *selector, *count) {
                Ok(found) => call_target(play, out, program, most, found),
                Err(why) => Err(why),
            }
        }
        Step::CallValue(at, count, type_) => match value_call(
            &mut play.run,
            tables,
            *at,
            *count,
            *type_,
        ) {
            Ok(found) => call_target(play, out, program, most, found),
            Err(why) => Err(why),
        },
        Step::CallComponent(method, count) => {
            let found = Call {
                target: Target::Run(*method),
                count: *count,
                receiver: CoreValue::Null,
            };
            call_target(play, out, program, most, found)
        }
        Step::NewObject(at, class, count) => construct(
            play, out, program, most, *at, *class, *count,
        ),
        Step::Super(class, count) => construct_above(play, out, program, most, *class, *count),
        _ => unreachable!(),
    }
}

// A new object, constructed.
#[cycle(exec)]
fn construct<O: Sink>(
    play: &mut Playing,
    out: &mut O,
    program: &Program,
    most: u32,
    at: u32,
    class: u16,
    count: u16,
) -> Result<(), Exit>
    ensures answers { Comes result play.new.run
        (meaning.make_object program.now.tables (calling (program_at program.now) most) at class count (state play.old.run) (world play.old.run)) }
    ensures kept { GoesOn result play.old.run play.new.run }
    ensures puts { Shows (O.told out.old) (O.faults out.old) play.old (O.told out.new) (O.faults out.new) play.new
        (meaning.make_object program.now.tables (calling (program_at program.now) most) at class count (state play.old.run) (world play.old.run)) }
{
    match new_object(&mut play.run, &program.tables, at, class) {
        Ok(cell) => build(play, out, program, most, class, count, cell),
        Err(why) => Err(why),
    }
}

// The construction of the object in this cell, which is then the value.
#[cycle(exec)]
fn build<O: Sink>(
    play: &mut Playing,
    out: &mut O,
    program: &Program,
    most: u32,
    class: u16,
    count: u16,
    cell: u32,
) -> Result<(), Exit>
    ensures answers { Comes result play.new.run
        (meaning.constructing (calling (program_at program.now) most) class count cell (state play.old.run) (world play.old.run)) }
    ensures kept { GoesOn result play.old.run play.new.run }
    ensures puts { Shows (O.told out.old) (O.faults out.old) play.old (O.told out.new) (O.faults out.new) play.new
        (meaning.constructing (calling (program_at program.now) most) class count cell (state play.old.run) (world play.old.run)) }
{
    let receiver = CoreValue::Obj(cell);
    call_target(
        play,
        out,
        program,
        most,
        Call {
            target: Target::Construct(class),
            count,
            receiver,
        },
    )?;
    if play.run.frames.pop().is_none() {
        return Err(Exit::Wrong);
    }
    play.run.frames.push(receiver)?;
    Ok(())
}

// The construction of the class above, in that of a class.
#[cycle(exec)]
fn construct_above<O: Sink>(
    play: &mut Playing,
    out: &mut O,
    program: &Program,
    most: u32,
    class: u16,
    count: u16,
) -> Result<(), Exit>
    ensures answers { Comes result play.new.run
        (meaning.forgetting (calling (program_at program.now) most (targets.Construct class) count (state play.old.run).self) (state play.old.run) (world play.old.run)) }
    ensures kept { GoesOn result play.old.run play.new.run }
    ensures puts { Shows (O.told out.old) (O.faults out.old) play.old (O.told out.new) (O.faults out.new) play.new
        (meaning.forgetting (calling (program_at program.now) most (targets.Construct class) count (state play.old.run).self) (state play.old.run) (world play.old.run)) }
{
    call_target(
        play,
        out,
        program,
        most,
        Call {
            target: Target::Construct(class),
            count,
            receiver: play.run.receiver,
        },
    )?;
    if play.run.frames.pop().is_none() {
        return Err(Exit::Wrong);
    }
    Ok(())
}

/// Calls a target with so many of the newest values; the call's value comes in their place. Calls are at most so deep.
pub fn call<O: Sink>(
    play: &mut Playing,
    out: &mut O,
    program: &Program,
    most: u32,
    call: Call,
) -> Result<(), Signal>
    ensures answers { Answers result (state play.new.run) (world play.new.run)
        (calling (program_at program.now) most call.target call.count call.receiver (state play.old.run) (world play.old.run)) }
    ensures kept { StaysUnder result play.old.run play.new.run }
    ensures puts { Shows (O.told out.old) (O.faults out.old) play.old (O.told out.new) (O.faults out.new) play.new
        (calling (program_at program.now) most call.target call.count call.receiver (state play.old.run) (world play.old.run)) }
{
    match call_target(play, out, program, most, call) {
        Ok(()) => Ok(()),
        Err(why) => Err(play.run.cause.signal(why)),
    }
}

// Calls a target.
#[cycle(exec)]
fn call_target<O: Sink>(
    play: &mut Playing,
    out: &mut O,
    program: &Program,
    most: u32,
    call: Call,
) -> Result<(), Exit>
    ensures answers { Comes result play.new.run
        (calling (program_at program.now) most call.target call.count call.receiver (state play.old.run) (world play.old.run)) }
    ensures kept { GoesOn result play.old.run play.new.run }
    ensures puts { Shows (O.told out.old) (O.faults out.old) play.old (O.told out.new) (O.faults out.new) play.new
        (calling (program_at program.now) most call.target call.count call.receiver (state play.old.run) (world play.old.run)) }
{
    if most == 0 {
        return Err(Exit::OutOfClock);
    }
    find(play, out, program, most, call)
}

// Calls a target, where it is there.
#[cycle(exec)]
fn find<O: Sink>(
    play: &mut Playing,
    out: &mut O,
    program: &Program,
    most: u32,
    call: Call,
) -> Result<(), Exit>
    requires { 0 < most }
    ensures answers { Comes result play.new.run
        (looks_up (program_at program.now) (most - 1) call.target call.count call.receiver (state play.old.run) (world play.old.run)) }
    ensures kept { GoesOn result play.old.run play.new.run }
    ensures puts { Shows (O.told out.old) (O.faults out.old) play.old (O.told out.new) (O.faults out.new) play.new
        (looks_up (program_at program.now) (most - 1) call.target call.count call.receiver (state play.old.run) (world play.old.run)) }
{
    match call.target {
        Target::Run(method) => find_method(play, out, program, most, method, call),
        Target::Construct(class) => find_making(play, out, program, most, class, call),
        Target::Start(component) => find_start(play, out, program, most, component, call),
    }
}

// Calls a method, where it is there.
#[cycle(exec)]
fn find_method<O: Sink>(
    play: &mut Playing,
    out: &mut O,
    program: &Program,
    most: u32,
    method: u16,
    call: Call,
) -> Result<(), Exit>
    requires { 0 < most }
    ensures answers { Comes result play.new.run
        (looks_up (program_at program.now) (most - 1) (targets.Run method) call.count call.receiver (state play.old.run) (world play.old.run)) }
    ensures kept { GoesOn result play.old.run play.new.run }
    ensures puts { Shows (O.told out.old) (O.faults out.old) play.old (O.told out.new) (O.faults out.new) play.new
        (looks_up (program_at program.now) (most - 1) (targets.Run method) call.count call.receiver (state play.old.run) (world play.old.run)) }
{
    let Some(found) = method_at(&program.tables, method) else {
        return Err(Exit::Wrong);
    };
    let Some(body) = method_body(program, method) else {
        return Err(Exit::Wrong);
    };
    let opened = Call {
        target: Target::Run(method),
        count: call.count,
        receiver: call.receiver,
    };
    open(
        play,
        out,
        program,
        most,
        found.params.as_slice(),
        found.result,
        body,
        opened,
    )
}

// Calls the construction of a class, where it is there.
#[cycle(exec)]
fn find_making<O: Sink>(
    play: &mut Playing,
    out: &mut O,
    program: &Program,
    most: u32,
    class: u16,
    call: Call,
) -> Result<(), Exit>
    requires { 0 < most }
    ensures answers { Comes result play.new.run
        (looks_up (program_at program.now) (most - 1) (targets.Construct class) call.count call.receiver (state play.old.run) (world play.old.run)) }
    ensures kept { GoesOn result play.old.run play.new.run }
    ensures puts { Shows (O.told out.old) (O.faults out.old) play.old (O.told out.new) (O.faults out.new) play.new
        (looks_up (program_at program.now) (most - 1) (targets.Construct class) call.count call.receiver (state play.old.run) (world play.old.run)) }
{
    let Some(found) = class_at(&program.tables, class) else {
        return Err(Exit::Wrong);
    };
    let Some(body) = making_body(program, class) else {
        return Err(Exit::Wrong);
    };
    let opened = Call {
        target: Target::Construct(class),
        count: call.count,
        receiver: call.receiver,
    };
    open(
        play,
        out,
        program,
        most,
        found.params.as_slice(),
        CoreType::NoType,
        body,
        opened,
    )
}

// Calls the initialisation of a component, where it is there.
#[cycle(exec)]
fn find_start<O: Sink>(
    play: &mut Playing,
    out: &mut O,
    program: &Program,
    most: u32,
    component: u16,
    call: Call,
) -> Result<(), Exit>
    requires { 0 < most }
    ensures answers { Comes result play.new.run
        (looks_up (program_at program.now) (most - 1) (targets.Start component) call.count call.receiver (state play.old.run) (world play.old.run)) }
    ensures kept { GoesOn result play.old.run play.new.run }
    ensures puts { Shows (O.told out.old) (O.faults out.old) play.old (O.told out.new) (O.faults out.new) play.new
        (looks_up (program_at program.now) (most - 1) (targets.Start component) call.count call.receiver (state play.old.run) (world play.old.run)) }
{
    if !is_component(&program.tables, component) {
        return Err(Exit::Wrong);
    }
    let Some(body) = start_body(program, component) else {
        return Err(Exit::Wrong);
    };
    let opened = Call {
        target: Target::Start(component),
        count: call.count,
        receiver: call.receiver,
    };
    open(
        play,
        out,
        program,
        most,
        &[],
        CoreType::NoType,
        body,
        opened,
    )
}

// Opens a call of this body, with parameters and a result of these types.
#[cycle(exec)]
fn open<O: Sink>(
    play: &mut Playing,
    out: &mut O,
    program: &Program,
    most: u32,
    params: &[CoreType],
    result_type: CoreType,
    body: &Body,
    call: Call,
) -> Result<(), Exit>
    requires deep { 0 < most }
    requires light { 8 * weight body.now.code + 8 ≤ whole program.now }
    ensures answers { Comes result play.new.run
        (opens (program_at program.now) (most - 1) call.target params.now result_type (body_at body.now) call.count call.receiver
        (state play.old.run) (world play.old.run)) }
    ensures kept { GoesOn result play.old.run play.new.run }
    ensures puts { Shows (O.told out.old) (O.faults out.old) play.old (O.told out.new) (O.faults out.new) play.new
        (opens (program_at program.now) (most - 1) call.target params.now result_type (body_at body.now) call.count call.receiver
        (state play.old.run) (world play.old.run)) }
{
    play.offer(out)?;
    if !has_arguments(&play.run, &program.tables, params, call.count) {
        return Err(Exit::Wrong);
    }
    play.run.around.open()?;
    match run_body(play, out, program, most, result_type, body, call) {
        Ok(()) => {
            play.run.around.close();
            Ok(())
        }
        Err(why) => Err(why),
    }
}

// Runs a body as a call of it.
#[cycle(exec)]
fn run_body<O: Sink>(
    play: &mut Playing,
    out: &mut O,
    program: &Program,
    most: u32,
    result_type: CoreType,
    body: &Body,
    call: Call,
) -> Result<(), Exit>
    requires deep { 0 < most }
    requires light { 8 * weight body.now.code + 8 ≤ whole program.now }
    requires enough { call.count ≤ length (state play.old.run).values }
    ensures answers { Comes result play.new.run
        (runs (program_at program.now) (most - 1) result_type (body_at body.now) call.count call.receiver (state play.old.run) (world play.old.run)) }
    ensures kept { GoesOn result play.old.run play.new.run }
    ensures puts { Shows (O.told out.old) (O.faults out.old) play.old (O.told out.new) (O.faults out.new) play.new
        (runs (program_at program.now) (most - 1) result_type (body_at body.now) call.count call.receiver (state play.old.run) (world play.old.run)) }
{
    let outside = enter(&mut play.run, body, call)?;
    value_of(play, out, program, most, result_type, &body.code)?;
    leave(&mut play.run, &program.tables, result_type, outside)
}

// Runs a body up to its value: an end without return gives the default of the result.
#[cycle(exec)]
fn value_of<O: Sink>(
    play: &mut Playing,
    out: &mut O,
    program: &Program,
    most: u32,
    result_type: CoreType,
    code: &Code,
) -> Result<(), Exit>
    requires deep { 0 < most }
    requires light { 8 * weight code.now + 8 ≤ whole program.now }
    ensures answers { Comes result play.new.run
        (returned (does (program_at program.now) (most - 1) (code_of code.now) (state play.old.run) (world play.old.run)) (put (heap.default result_type))) }
    ensures kept { GoesOn result play.old.run play.new.run }
    ensures puts { Shows (O.told out.old) (O.faults out.old) play.old (O.told out.new) (O.faults out.new) play.new
        (returned (does (program_at program.now) (most - 1) (code_of code.now) (state play.old.run) (world play.old.run)) (put (heap.default result_type))) }
{
    match exec(play, out, program, most - 1, code) {
        Ok(()) => {
            play.run.frames.push(default_of(result_type))?;
            Ok(())
        }
        Err(Exit::Return) => Ok(()),
        Err(Exit::Break) | Err(Exit::Continue) => Err(Exit::Wrong),
        Err(Exit::Stops) => Err(Exit::Stops),
        Err(Exit::Wants) => Err(Exit::Wants),
        Err(Exit::Touches) => Err(Exit::Touches),
        Err(Exit::Done) => Err(Exit::Done),
        Err(Exit::OutOfClock) => Err(Exit::OutOfClock),
        Err(Exit::OutOfDepth) => Err(Exit::OutOfDepth),
        Err(Exit::OutOfRoom) => Err(Exit::OutOfRoom),
        Err(Exit::Wrong) => Err(Exit::Wrong),
        Err(Exit::NoMemory) => Err(Exit::NoMemory),
    }
}
