// The steps that come most, and the look at a condition. They answer in one byte.
ghost use Rattle.std.specs.Prelude.{◌≡◌};
ghost use Rattle.vg_core.specs.declared.step.Step.TheVariants as steps;
ghost use Rattle.vg_core.specs.Meaning as meaning;
ghost use Rattle.vg_core.specs.Meaning.{computed, truth};
ghost use Rattle.vg_source.specs.Operators.{Computed};
ghost use Rattle.vg_interp_values.specs.Made.{Makes};
ghost use Rattle.vg_interp_run.specs.Exits.{Comes, Takes};
ghost use Rattle.vg_interp_run.specs.Run.{state, uncalled, world, Kept};

use crate::run::Run;
use crate::signal::{Exit, Signal};
use vg_core::{CoreType, CoreValue, Operator, Tables};
use vg_interp_values as values;
use vg_interp_values::Failure;

/// A value that is no reference to a cell.
#[inline(always)]
pub fn put(run: &mut Run, tables: &Tables, value: CoreValue) -> Result<(), Exit>
    ensures answers { Comes result run.new (meaning.step tables.now uncalled (steps.Put value) (state run.old) (world run.old)) }
    ensures kept { Kept run.old run.new }
{
    run.frames.push(value)?;
    Ok(())
}

/// A parameter or local.
#[inline(always)]
pub fn local(run: &mut Run, tables: &Tables, number: u8) -> Result<(), Exit>
    ensures answers { Comes result run.new (meaning.step tables.now uncalled (steps.Local number) (state run.old) (world run.old)) }
    ensures kept { Kept run.old run.new }
{
    match run.frames.local(number) {
        Some(value) => {
            run.frames.push(value)?;
            Ok(())
        }
        None => Err(Exit::Wrong),
    }
}

/// A parameter or local is set. An int, which comes most, is looked at here.
#[inline(always)]
pub fn set_local(run: &mut Run, tables: &Tables, number: u8, type_: &CoreType) -> Result<(), Exit>
    ensures answers { Comes result run.new (meaning.step tables.now uncalled (steps.SetLocal number type_.now) (state run.old) (world run.old)) }
    ensures kept { Kept run.old run.new }
{
    let Some(value) = run.frames.pop() else {
        return Err(Exit::Wrong);
    };
    match value {
        CoreValue::Int(n) => store(run, tables, number, type_, CoreValue::Int(n)),
        _ => store_another(run, tables, number, type_, value),
    }
}

// A parameter or local is set to a value that is no int.
#[inline(never)]
fn store_another(
    run: &mut Run,
    tables: &Tables,
    number: u8,
    type_: &CoreType,
    value: CoreValue,
) -> Result<(), Exit>
    ensures answers { Comes result run.new (meaning.put_local tables.now number type_.now value (state run.old) (world run.old)) }
    ensures kept { Kept run.old run.new }
{
    store(run, tables, number, type_, value)
}

// A parameter or local is set to a value.
#[inline(always)]
fn store(
    run: &mut Run,
    tables: &Tables,
    number: u8,
    type_: &CoreType,
    value: CoreValue,
) -> Result<(), Exit>
    ensures answers { Comes result run.new (meaning.put_local tables.now number type_.now value (state run.old) (world run.old)) }
    ensures kept { Kept run.old run.new }
{
    if !run.has_type(tables, *type_, value) {
        return Err(Exit::Wrong);
    }
    match run.frames.local(number) {
        Some(_) => {
            run.frames.set_local(number, value);
            Ok(())
        }
        None => Err(Exit::Wrong),
    }
}

/// An operator on two values of types. Two ints, which come most, are looked at here.
#[inline(always)]
pub fn operate(
    run: &mut Run,
    tables: &Tables,
    at: u32,
    op: Operator,
    left: &CoreType,
    right: &CoreType,
) -> Result<(), Exit>
    ensures answers { Comes result run.new (meaning.step tables.now uncalled (steps.Operate at op left.now right.now) (state run.old) (world run.old)) }
    ensures kept { Kept run.old run.new }
{
    let Some(y) = run.frames.pop() else {
        return Err(Exit::Wrong);
    };
    let Some(x) = run.frames.pop() else {
        return Err(Exit::Wrong);
    };
    match x {
        CoreValue::Int(m) => match y {
            CoreValue::Int(n) => operate_on(
                run,
                tables,
                at,
                op,
                left,
                right,
                Operands {
                    left: CoreValue::Int(m),
                    right: CoreValue::Int(n),
                },
            ),
            _ => operate_on_others(
                run,
                tables,
                at,
                op,
                left,
                right,
                Operands { left: x, right: y },
            ),
        },
        _ => operate_on_others(
            run,
            tables,
            at,
            op,
            left,
            right,
            Operands { left: x, right: y },
        ),
    }
}

// Two values that an operator is to take.
#[derive(Clone, Copy, Debug, PartialEq, Eq)]
struct Operands {
    left: CoreValue,
    right: CoreValue,
}

// An operator on two values that are not both ints.
#[inline(never)]
fn operate_on_others(
    run: &mut Run,
    tables: &Tables,
    at: u32,
    op: Operator,
    left: &CoreType,
    right: &CoreType,
    on: Operands,
) -> Result<(), Exit>
    ensures answers { Comes result run.new
        (meaning.operated tables.now at op left.now right.now on.left on.right (state run.old) (world run.old)) }
    ensures kept { Kept run.old run.new }
{
    operate_on(run, tables, at, op, left, right, on)
}

// An operator on these two values.
#[inline(always)]
fn operate_on(
    run: &mut Run,
    tables: &Tables,
    at: u32,
    op: Operator,
    left: &CoreType,
    right: &CoreType,
    on: Operands,
) -> Result<(), Exit>
    ensures answers { Comes result run.new
        (meaning.operated tables.now at op left.now right.now on.left on.right (state run.old) (world run.old)) }
    ensures kept { Kept run.old run.new }
{
    if !run.has_type(tables, *right, on.right) {
        return Err(Exit::Wrong);
    }
    if !run.has_type(tables, *left, on.left) {
        return Err(Exit::Wrong);
    }
    push_made(run, at, values::operate(op, on.left, on.right))
}

// Puts what was made in front of those that wait.
#[inline(always)]
fn push_made(run: &mut Run, at: u32, made: Result<CoreValue, Failure>) -> Result<(), Exit>
    ensures answers { (c : Computed) → Makes made c → Comes result run.new (computed at c (state run.old) (world run.old)) }
    ensures kept { Kept run.old run.new }
{
    match made {
        Ok(value) => {
            run.frames.push(value)?;
            Ok(())
        }
        Err(Failure::Fails(code)) => Err(run.exit(Signal::Stops(code, at))),
        Err(Failure::Unfit) => Err(Exit::Wrong),
        Err(Failure::NoMemory) => Err(Exit::NoMemory),
    }
}

/// Takes the truth value that waits in front.
#[inline(always)]
pub fn test(run: &mut Run) -> Result<bool, Exit>
    ensures tests { Takes result (state run.new) (truth (state run.old)) }
    ensures world { world run.new ≡ world run.old }
    ensures kept { Kept run.old run.new }
{
    match run.frames.pop() {
        Some(CoreValue::Bool(holds)) => Ok(holds),
        _ => Err(Exit::Wrong),
    }
}
