// Calls: what is checked before one, how its body is entered and left, and what the steps that call look up.
ghost use Rattle.std.specs.Prelude.{◌≡◌, ◌==◌, ◌&&◌, ◌++◌, ◌≤◌, ℕ, true, [], IfOk, OnOk, length, map, slice_get, take};
ghost use Rattle.vg_core.specs.declared.value.CoreValue.TheVariants.{Obj};
ghost use Rattle.vg_core.specs.declared.program.Target.TheVariants as targets;
ghost use Rattle.vg_core.specs.Tables as tables_of;
ghost use Rattle.vg_core.specs.Heap.{default};
ghost use Rattle.vg_core.specs.declared.heap.Cell.TheVariants.{Object};
ghost use Rattle.vg_core.specs.HeldProgram.{body_at};
ghost use Rattle.vg_core.specs.State as state_of;
ghost use Rattle.vg_core.specs.State.{State, onto};
ghost use Rattle.vg_core.specs.Meaning as meaning;
ghost use Rattle.vg_core.specs.Meaning.{Caller, adding, at_start, checked, defaults, from_below, with_class, with_found};
ghost use Rattle.vg_meaning.specs.Answer.{Piece};
ghost use Rattle.vg_interp_run.specs.Calling.{Calls, Leaves, Makes, Opened};
ghost use Rattle.vg_interp_run.specs.Exits.{Adds, Finds};
ghost use Rattle.vg_interp_run.specs.Run.{state, world, Kept};

use crate::around::Phase;
use crate::run::Run;
use crate::signal::{Exit, Signal};
use vg_base::NoMemory;
use vg_core::{Body, CoreType, CoreValue, Tables, Target};
use vg_interp_frames::Mark;
use vg_interp_values::default_of;
use vg_shape::lookup::{dispatch, is_below};
use vg_shape::types_of_values::are_of;

/// What is called, with so many of the newest values, as this receiver.
#[derive(Clone, Copy, Debug, PartialEq, Eq)]
pub struct Call {
    pub target: Target,
    pub count: u16,
    pub receiver: CoreValue,
}

/// What a caller has beside its waiting values and its locals: where they lie, and its receiver.
#[derive(Clone, Copy, Debug, PartialEq, Eq)]
pub struct Outside {
    pub mark: Mark,
    pub receiver: CoreValue,
}

/// Whether so many of the newest values are of the types of parameters, and there are as many.
pub fn has_arguments(run: &Run, tables: &Tables, params: &[CoreType], count: u16) -> bool
    ensures same { result ≡ ((length params.now == count)
        && state_of.are_of tables.now (state run.now).heap.cells (onto params.now []) (take count (state run.now).values)) }
    ensures enough { result ≡ true → count ≤ length (state run.now).values }
{
    if params.len() != usize::from(count) {
        return false;
    }
    match run.frames.newest(count) {
        Some(arguments) => are_of(tables, run.store.cells(), params, arguments),
        None => false,
    }
}

/// Enters a body.
pub fn enter(run: &mut Run, body: &Body, call: Call) -> Result<Outside, NoMemory>
    requires { call.count ≤ length (state run.old).values }
    ensures { IfOk result (λ outside. Opened outside (body_at body.now) call.count call.receiver run.old run.new) }
{
    let outside = Outside {
        mark: run.frames.mark(),
        receiver: run.receiver,
    };
    run.frames.enter(call.count);
    run.receiver = call.receiver;
    push_locals(run, body.others.as_slice())?;
    Ok(outside)
}

// The other locals of a body have their defaults.
fn push_locals(run: &mut Run, others: &[CoreType]) -> Result<(), NoMemory>
    requires { (state run.old).values ≡ [] }
    ensures { OnOk result (run.new ≡ record run.old { frames = record run.old.frames { locals = run.old.frames.locals ++ map default others.now } }) }
{
    for type_ in others {
        run.frames.push_local(default_of(*type_))?;
    }
    Ok(())
}

/// Leaves a body, with its value.
pub fn leave(
    run: &mut Run,
    tables: &Tables,
    result_type: CoreType,
    outside: Outside,
) -> Result<(), Exit>
    requires order { outside.mark.start ≤ outside.mark.base }
    requires within { outside.mark.base ≤ length run.old.frames.below }
    ensures { Leaves result tables.now result_type outside run.old run.new }
{
    let Some(value) = run.frames.pop() else {
        return Err(Exit::Wrong);
    };
    if !run.has_type(tables, result_type, value) {
        return Err(Exit::Wrong);
    }
    run.frames.leave(outside.mark, value)?;
    run.receiver = outside.receiver;
    Ok(())
}

/// A call of a method of the object below the arguments.
pub fn method_call(
    run: &mut Run,
    tables: &Tables,
    at: u32,
    class: u16,
    selector: u16,
    count: u16,
) -> Result<Call, Exit>
    ensures calls { (call : Caller ℕ) → Finds result call run.new
        (meaning.call_method tables.now call at class selector count (state run.old) (world run.old)) }
    ensures kept { Kept run.old run.new }
{
    match method_below(run, tables, at, class, selector, count) {
        Ok(found) => Ok(found),
        Err(why) => Err(run.exit(why)),
    }
}

// The same, with its signal.
fn method_below(
    run: &mut Run,
    tables: &Tables,
    at: u32,
    class: u16,
    selector: u16,
    count: u16,
) -> Result<Call, Signal>
    ensures calls { (call : Caller ℕ) → Calls result call (state run.new) (world run.new)
        (meaning.call_method tables.now call at class selector count (state run.old) (world run.old)) }
    ensures kept { Kept run.old run.new }
{
    match run.take_below(count)? {
        CoreValue::Obj(k) => method_of_object(run, tables, k, class, selector, count),
        CoreValue::Null => Err(Signal::Stops(1, at)),
        CoreValue::Int(_)
        | CoreValue::Bool(_)
        | CoreValue::Char(_)
        | CoreValue::Raw(_, _)
        | CoreValue::Arr(_)
        | CoreValue::Bound(_, _) => Err(Signal::Wrong),
    }
}

// A call of the method that the object in this cell has for a selector.
fn method_of_object(
    run: &Run,
    tables: &Tables,
    k: u32,
    class: u16,
    selector: u16,
    count: u16,
) -> Result<Call, Signal>
    ensures { (call : Caller ℕ) → Calls result call (state run.now) (world run.now)
        (with_class k (λ d. checked (tables_of.is_below tables.now d class)
        (with_found (tables_of.dispatch tables.now d selector) (λ m. call (targets.Run m) count (Obj k)))) (state run.now) (world run.now)) }
{
    let Some(found) = run.store.class_of(k) else {
        return Err(Signal::Wrong);
    };
    if !is_below(tables, found, class) {
        return Err(Signal::Wrong);
    }
    match dispatch(tables, found, selector) {
        Some(method) => Ok(Call {
            target: Target::Run(method),
            count,
            receiver: CoreValue::Obj(k),
        }),
        None => Err(Signal::Wrong),
    }
}

/// A call of the delegate below the arguments.
pub fn value_call(
    run: &mut Run,
    tables: &Tables,
    at: u32,
    count: u16,
    type_: u32,
) -> Result<Call, Exit>
    ensures calls { (call : Caller ℕ) → Finds result call run.new
        (from_below count (meaning.call_bound tables.now call at count type_) (state run.old) (world run.old)) }
    ensures kept { Kept run.old run.new }
{
    match value_below(run, tables, at, count, type_) {
        Ok(found) => Ok(found),
        Err(why) => Err(run.exit(why)),
    }
}

// The same, with its signal.
fn value_below(
    run: &mut Run,
    tables: &Tables,
    at: u32,
    count: u16,
    type_: u32,
) -> Result<Call, Signal>
    ensures calls { (call : Caller ℕ) → Calls result call (state run.new) (world run.new)
        (from_below count (meaning.call_bound tables.now call at count type_) (state run.old) (world run.old)) }
    ensures kept { Kept run.old run.new }
{
    match run.take_below(count)? {
        CoreValue::Bound(receiver, method) => bound_call(
            run, tables, receiver, method, count, type_,
        ),
        CoreValue::Null => Err(Signal::Stops(1, at)),
        CoreValue::Int(_)
        | CoreValue::Bool(_)
        | CoreValue::Char(_)
        | CoreValue::Raw(_, _)
        | CoreValue::Obj(_)
        | CoreValue::Arr(_) => Err(Signal::Wrong),
    }
}

// A call of a method of this function type, with a receiver, if it has one.
fn bound_call(
    run: &Run,
    tables: &Tables,
    receiver: Option<u32>,
    method: u16,
    count: u16,
    type_: u32,
) -> Result<Call, Signal>
    ensures { (call : Caller ℕ) → Calls result call (state run.now) (world run.now)
        (with_found (slice_get tables.now.methods method) (λ x. checked (x.function == type_) (call (targets.Run method) count (meaning.receiver_of receiver)))
        (state run.now) (world run.now)) }
{
    let Some(found) = tables.methods.as_slice().get(usize::from(method)) else {
        return Err(Signal::Wrong);
    };
    if found.function != type_ {
        return Err(Signal::Wrong);
    }
    Ok(Call {
        target: Target::Run(method),
        count,
        receiver: receiver_of(receiver),
    })
}

// The receiver of a delegate: a component's method has none.
fn receiver_of(receiver: Option<u32>) -> CoreValue
    ensures { result ≡ meaning.receiver_of receiver }
{
    match receiver {
        Some(k) => CoreValue::Obj(k),
        None => CoreValue::Null,
    }
}

/// A new object of default values, before it is constructed; the answer is its cell.
pub fn new_object(run: &mut Run, tables: &Tables, at: u32, class: u16) -> Result<u32, Exit>
    ensures makes { (go : ℕ → Piece State ℕ) → Adds result go run.new
        (at_start (world run.old).phase at (with_found (slice_get tables.now.classes class)
        (λ k. adding (length k.fields) (Object class (defaults tables.now k.fields)) go)) (state run.old) (world run.old)) }
    ensures kept { Kept run.old run.new }
{
    match cell_of(run, tables, at, class) {
        Ok(cell) => Ok(cell),
        Err(why) => Err(run.exit(why)),
    }
}

// The same, with its signal.
fn cell_of(run: &mut Run, tables: &Tables, at: u32, class: u16) -> Result<u32, Signal>
    ensures makes { (go : ℕ → Piece State ℕ) → Makes result go (state run.new) (world run.new)
        (at_start (world run.old).phase at (with_found (slice_get tables.now.classes class)
        (λ k. adding (length k.fields) (Object class (defaults tables.now k.fields)) go)) (state run.old) (world run.old)) }
    ensures kept { Kept run.old run.new }
{
    match run.around.phase() {
        Phase::Running => Err(Signal::Stops(5, at)),
        Phase::Starting => match tables.classes.as_slice().get(usize::from(class)) {
            Some(found) => add_object(run, tables, class, found.fields.as_slice()),
            None => Err(Signal::Wrong),
        },
    }
}

// A new object of default values, if there is room.
fn add_object(run: &mut Run, tables: &Tables, class: u16, fields: &[u32]) -> Result<u32, Signal>
    ensures makes { (go : ℕ → Piece State ℕ) → Makes result go (state run.new) (world run.new)
        (adding (length fields.now) (Object class (defaults tables.now fields.now)) go (state run.old) (world run.old)) }
    ensures kept { Kept run.old run.new }
{
    if !run.has_room(fields.len())? {
        return Err(Signal::OutOfRoom);
    }
    Ok(run.store.add_object(tables, class, fields)?)
}
