// Operators, casts and class tests.
ghost use Rattle.vg_core.specs.declared.step.Step.TheVariants as steps;
ghost use Rattle.vg_core.specs.Meaning as meaning;
ghost use Rattle.vg_interp_run.specs.Run.{state, uncalled, world, Answers, Kept};

use crate::run::Run;
use crate::signal::Signal;
use vg_core::{CoreType, CoreValue, Operator, Prefix, Tables};
use vg_interp_values as values;
use vg_shape::lookup::{is_below, one_hierarchy};

/// An operator on one value of a type.
#[tactic(auto, using(crate::proofs::Steps::looked_up))]
pub fn apply(run: &mut Run, tables: &Tables, op: Prefix, type_: CoreType) -> Result<(), Signal>
    ensures answers { Answers result (state run.new) (world run.new) (meaning.step tables.now uncalled (steps.Apply op type_) (state run.old) (world run.old)) }
    ensures kept { Kept run.old run.new }
{
    let value = run.pop()?;
    if !run.has_type(tables, type_, value) {
        return Err(Signal::Wrong);
    }
    run.push_computed(0, values::apply(op, value))
}

/// A cast of a value of a type to another type.
pub fn cast_to(
    run: &mut Run,
    tables: &Tables,
    at: u32,
    from: CoreType,
    to: CoreType,
) -> Result<(), Signal>
    ensures answers { Answers result (state run.new) (world run.new) (meaning.step tables.now uncalled (steps.CastTo at from to) (state run.old) (world run.old)) }
    ensures kept { Kept run.old run.new }
{
    let value = run.pop()?;
    if !run.has_type(tables, from, value) {
        return Err(Signal::Wrong);
    }
    cast(run, tables, at, to, value)
}

// A cast of this value.
#[tactic(auto, using(crate::proofs::Steps::looked_up))]
fn cast(
    run: &mut Run,
    tables: &Tables,
    at: u32,
    to: CoreType,
    value: CoreValue,
) -> Result<(), Signal>
    ensures answers { Answers result (state run.new) (world run.new) (meaning.cast_to tables.now at to value (state run.old) (world run.old)) }
    ensures kept { Kept run.old run.new }
{
    match to {
        CoreType::IntType => run.push_computed(at, values::to_int(value)),
        CoreType::CharType => run.push_computed(at, values::to_char(value)),
        CoreType::RawType(width) => run.push_computed(at, values::to_bits(width, value)),
        CoreType::ClassType(class) => cast_to_class(run, tables, at, class, value),
        CoreType::BoolType
        | CoreType::NullType
        | CoreType::ArrayType(_)
        | CoreType::FunctionType(_, _)
        | CoreType::NoType
        | CoreType::MoreTypes(_, _) => run.push_found(values::as_it_is(to, value)),
    }
}

// A cast of this value to a class.
fn cast_to_class(
    run: &mut Run,
    tables: &Tables,
    at: u32,
    to: u16,
    value: CoreValue,
) -> Result<(), Signal>
    ensures answers { Answers result (state run.new) (world run.new) (meaning.cast_to_class tables.now at to value (state run.old) (world run.old)) }
    ensures kept { Kept run.old run.new }
{
    match value {
        CoreValue::Null => run.push(CoreValue::Null),
        CoreValue::Obj(k) => match run.store.class_of(k) {
            Some(class) => {
                if !one_hierarchy(tables, class, to) {
                    return Err(Signal::Wrong);
                }
                if !is_below(tables, class, to) {
                    return Err(Signal::Stops(4, at));
                }
                run.push(CoreValue::Obj(k))
            }
            None => Err(Signal::Wrong),
        },
        CoreValue::Int(_)
        | CoreValue::Bool(_)
        | CoreValue::Char(_)
        | CoreValue::Raw(_, _)
        | CoreValue::Arr(_)
        | CoreValue::Bound(_, _) => Err(Signal::Wrong),
    }
}

/// Whether an object is of a class or below it.
pub fn test_class(run: &mut Run, tables: &Tables, class: u16) -> Result<(), Signal>
    ensures answers { Answers result (state run.new) (world run.new) (meaning.step tables.now uncalled (steps.IsBelow class) (state run.old) (world run.old)) }
    ensures kept { Kept run.old run.new }
{
    match run.pop()? {
        CoreValue::Null => run.push(CoreValue::Bool(false)),
        CoreValue::Obj(k) => match run.store.class_of(k) {
            Some(found) => {
                if !one_hierarchy(tables, found, class) {
                    return Err(Signal::Wrong);
                }
                run.push(CoreValue::Bool(is_below(tables, found, class)))
            }
            None => Err(Signal::Wrong),
        },
        CoreValue::Int(_)
        | CoreValue::Bool(_)
        | CoreValue::Char(_)
        | CoreValue::Raw(_, _)
        | CoreValue::Arr(_)
        | CoreValue::Bound(_, _) => Err(Signal::Wrong),
    }
}
