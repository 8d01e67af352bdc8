// Methods as values, and new arrays.
ghost use Rattle.std.specs.Prelude.{Some, replicate, slice_get};
ghost use Rattle.vg_core.specs.declared.value.CoreValue.TheVariants.{Arr, Bound};
ghost use Rattle.vg_core.specs.declared.heap.Cell.TheVariants.{Array};
ghost use Rattle.vg_core.specs.Heap.{default};
ghost use Rattle.vg_core.specs.Tables as tables_of;
ghost use Rattle.vg_core.specs.declared.step.Step.TheVariants as steps;
ghost use Rattle.vg_core.specs.Meaning as meaning;
ghost use Rattle.vg_core.specs.Meaning.{adding, checked, put, with_class, with_found};
ghost use Rattle.vg_interp_run.specs.Run.{state, uncalled, world, Answers, Kept};

use crate::around::Phase;
use crate::run::Run;
use crate::signal::Signal;
use vg_core::{CoreType, CoreValue, Tables};
use vg_interp_values::default_of;
use vg_shape::lookup::{dispatch, is_below};

/// A method of an object, as a value.
pub fn method_of(
    run: &mut Run,
    tables: &Tables,
    at: u32,
    class: u16,
    selector: u16,
) -> Result<(), Signal>
    ensures answers { Answers result (state run.new) (world run.new) (meaning.step tables.now uncalled (steps.MethodOf at class selector) (state run.old) (world run.old)) }
    ensures kept { Kept run.old run.new }
{
    match run.pop()? {
        CoreValue::Obj(k) => bind(run, tables, class, selector, k),
        CoreValue::Null => Err(Signal::Stops(1, at)),
        CoreValue::Int(_)
        | CoreValue::Bool(_)
        | CoreValue::Char(_)
        | CoreValue::Raw(_, _)
        | CoreValue::Arr(_)
        | CoreValue::Bound(_, _) => Err(Signal::Wrong),
    }
}

// The method that the object in this cell has for a selector.
fn bind(run: &mut Run, tables: &Tables, class: u16, selector: u16, k: u32) -> Result<(), Signal>
    ensures answers { Answers result (state run.new) (world run.new)
        (with_class k (λ d. checked (tables_of.is_below tables.now d class)
        (with_found (tables_of.dispatch tables.now d selector) (λ m. put (Bound (Some k) m)))) (state run.old) (world run.old)) }
    ensures kept { Kept run.old run.new }
{
    let Some(found) = run.store.class_of(k) else {
        return Err(Signal::Wrong);
    };
    if !is_below(tables, found, class) {
        return Err(Signal::Wrong);
    }
    match dispatch(tables, found, selector) {
        Some(method) => run.push(CoreValue::Bound(Some(k), method)),
        None => Err(Signal::Wrong),
    }
}

/// A new array of elements of the type of this number.
pub fn new_array(run: &mut Run, tables: &Tables, at: u32, t: u32) -> Result<(), Signal>
    ensures answers { Answers result (state run.new) (world run.new) (meaning.step tables.now uncalled (steps.NewArray at t) (state run.old) (world run.old)) }
    ensures kept { Kept run.old run.new }
{
    match run.around.phase() {
        Phase::Running => Err(Signal::Stops(5, at)),
        Phase::Starting => match run.pop()? {
            CoreValue::Int(size) => make_array(run, tables, at, t, size),
            CoreValue::Bool(_)
            | CoreValue::Char(_)
            | CoreValue::Raw(_, _)
            | CoreValue::Null
            | CoreValue::Obj(_)
            | CoreValue::Arr(_)
            | CoreValue::Bound(_, _) => Err(Signal::Wrong),
        },
    }
}

// A new array of so many elements.
fn make_array(run: &mut Run, tables: &Tables, at: u32, t: u32, size: i32) -> Result<(), Signal>
    ensures answers { Answers result (state run.new) (world run.new)
        (with_found (slice_get tables.now.types t) (λ e. meaning.make_array at t e size) (state run.old) (world run.old)) }
    ensures kept { Kept run.old run.new }
{
    let Some(element) = tables.types.as_slice().get(t as usize) else {
        return Err(Signal::Wrong);
    };
    if size < 0 {
        return Err(Signal::Stops(5, at));
    }
    add_array(run, t, *element, size.unsigned_abs())
}

// An array of so many default values, if there is room.
fn add_array(run: &mut Run, t: u32, element: CoreType, size: u32) -> Result<(), Signal>
    ensures answers { Answers result (state run.new) (world run.new)
        (adding size (Array t (replicate size (default element))) (λ a. put (Arr a)) (state run.old) (world run.old)) }
    ensures kept { Kept run.old run.new }
{
    if !run.has_room(size as usize)? {
        return Err(Signal::OutOfRoom);
    }
    let cell = run.store.add_array(t, size as usize, default_of(element))?;
    run.push(CoreValue::Arr(cell))
}
