// The steps that call nothing.
ghost use Rattle.std.specs.Prelude.{ℕ};
ghost use Rattle.vg_core.specs.Meaning as meaning;
ghost use Rattle.vg_core.specs.Meaning.{Caller};
ghost use Rattle.vg_interp_run.specs.Exits.{Comes};
ghost use Rattle.vg_interp_run.specs.Run.{state, world, Answers, IsAlone, IsRare, Kept};

use crate::run::Run;
use crate::signal::{Exit, Signal};
use crate::{devices, frequent, methods, operators, places, values};
use vg_core::{Step, Tables};

/// Performs a step that calls nothing: with each caller it does the same.
#[inline(always)]
pub fn perform(run: &mut Run, tables: &Tables, step: &Step) -> Result<(), Exit>
    requires { IsAlone step.now }
    ensures answers { (call : Caller ℕ) → Comes result run.new (meaning.step tables.now call step.now (state run.old) (world run.old)) }
    ensures kept { Kept run.old run.new }
{
    match step {
        Step::Local(number) => frequent::local(run, tables, *number),
        Step::Put(value) => frequent::put(run, tables, *value),
        Step::Operate(at, op, left, right) => {
            frequent::operate(run, tables, *at, *op, left, right)
        }
        Step::SetLocal(number, type_) => frequent::set_local(run, tables, *number, type_),
        _ => perform_rare(run, tables, step),
    }
}

// Performs a step that comes more seldom.
#[inline(never)]
fn perform_rare(run: &mut Run, tables: &Tables, step: &Step) -> Result<(), Exit>
    requires { IsRare step.now }
    ensures answers { (call : Caller ℕ) → Comes result run.new (meaning.step tables.now call step.now (state run.old) (world run.old)) }
    ensures kept { Kept run.old run.new }
{
    match signalled(run, tables, step) {
        Ok(()) => Ok(()),
        Err(why) => Err(run.exit(why)),
    }
}

// Performs such a step, with its signal.
fn signalled(run: &mut Run, tables: &Tables, step: &Step) -> Result<(), Signal>
    requires { IsRare step.now }
    ensures answers { (call : Caller ℕ) → Answers result (state run.new) (world run.new)
        (meaning.step tables.now call step.now (state run.old) (world run.old)) }
    ensures kept { Kept run.old run.new }
{
    match step {
        Step::Literal(number) => values::literal(run, tables, *number),
        Step::This => values::receiver(run, tables),
        Step::ComponentField(field) => places::component_field(run, tables, *field),
        Step::Register(address) => devices::register(run, tables, *address),
        Step::ComponentMethod(method) => values::component_method(run, tables, *method),
        Step::Apply(op, type_) => operators::apply(run, tables, *op, *type_),
        Step::CastTo(at, from, to) => operators::cast_to(run, tables, *at, *from, *to),
        Step::IsBelow(class) => operators::test_class(run, tables, *class),
        Step::Field(at, field) => places::field(run, tables, *at, *field),
        Step::Item(at, t) => places::item(run, tables, *at, *t),
        Step::Length(at, t) => places::length(run, tables, *at, *t),
        Step::MethodOf(at, class, selector) => {
            methods::method_of(run, tables, *at, *class, *selector)
        }
        Step::NewArray(at, t) => methods::new_array(run, tables, *at, *t),
        Step::SetComponentField(field) => places::set_component_field(run, tables, *field),
        Step::SetRegister(address) => devices::set_register(run, tables, *address),
        Step::SetField(at, field) => places::set_field(run, tables, *at, *field),
        Step::SetItem(at, t) => places::set_item(run, tables, *at, *t),
        Step::Forget => values::forget(run, tables),
        Step::Local(_)
        | Step::Put(_)
        | Step::Operate(_, _, _, _)
        | Step::SetLocal(_, _)
        | Step::CallMethod(_, _, _, _)
        | Step::CallValue(_, _, _)
        | Step::CallComponent(_, _)
        | Step::NewObject(_, _, _)
        | Step::Super(_, _) => unreachable!(),
    }
}
