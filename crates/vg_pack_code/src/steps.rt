// What stands for a step.
ghost use Rattle.std.specs.Prelude.{◌≡◌, ◌<◌, [], length, min, None, slice_get};
ghost use Rattle.vg_coded.specs.Operators as coded;
ghost use Rattle.vg_core.specs.Tables as tables_of;
ghost use Rattle.vg_number.specs.declared.numbers.Numbers.{Numbers as NumbersValue};
ghost use Rattle.vg_pack_code.specs.declared.plan.Plan.{Plan as PlanValue};
ghost use Rattle.vg_packing.specs.Layout as layout;
ghost use Rattle.vg_packing.specs.Pass as pass;
ghost use Rattle.vg_pack_code.specs.Plans.{column_of, delegate_arguments, done, few_step, layout_by, no_codes};

use crate::constants::constant;
use crate::operators::{cut_for, operator_for, prefix_for, width_of};
use crate::plan::{ColumnPlace, Plan, number_of, span_of};
use vg_core::{CoreType, Field, Owner, Step, Tables};
use vg_number::Numbers;

/// The step that stands for a step but a call of a delegate; none where nothing is done. Of a call of a method with more than 255 arguments only
/// 255 are counted.
pub fn step_for(
    tables: &Tables,
    numbers: &Numbers,
    plan: &Plan,
    step: Step,
) -> Option<vg_firm::Step>
    requires asked { length plan.now.asked < 4294967296 }
    ensures { delegate_arguments step ≡ None → done result ≡ pass.move tables.now (layout_by [] numbers.now plan.now) no_codes (few_step step) }
{
    match step {
        Step::Put(value) => Some(vg_firm::Step::Number(constant(numbers, plan, value))),
        Step::Literal(cell) => Some(vg_firm::Step::Number(u32::from(number_of(numbers, cell)))),
        Step::This => Some(vg_firm::Step::This),
        Step::Local(local) => Some(vg_firm::Step::Local(local)),
        Step::ComponentField(field) => Some(load(plan.column(field))),
        Step::Register(address) => Some(vg_firm::Step::ReadDevice(address)),
        Step::ComponentMethod(method) => Some(vg_firm::Step::Bind(plan.procedure(method))),
        Step::Apply(prefix, type_) => Some(vg_firm::Step::Apply(prefix_for(prefix, type_))),
        Step::Operate(_, operator, left, right) => {
            Some(vg_firm::Step::Operate(operator_for(operator, left, right)))
        }
        Step::CastTo(_, from, to) => cast(numbers, plan, from, to),
        Step::IsBelow(class) => {
            let span = span_of(numbers, class);
            Some(vg_firm::Step::IsWithin(span.first, span.count))
        }
        Step::Field(_, field) => Some(load_at(
            plan.column(field),
            first_with(tables, numbers, plan, field),
        )),
        Step::Item(_, element) => Some(vg_firm::Step::LoadItem(plan.elements(element))),
        Step::Length(_, element) => Some(vg_firm::Step::Length(plan.elements(element).table)),
        Step::MethodOf(_, class, selector) => Some(vg_firm::Step::BindFor(plan.dispatch(
            class, selector,
        ))),
        Step::CallMethod(_, class, selector, count) => {
            Some(vg_firm::Step::CallFor(plan.dispatch(class, selector), few(count)))
        }
        Step::CallValue(_, _, _) => None,
        Step::CallComponent(method, count) => Some(vg_firm::Step::Call(
            plan.procedure(method),
            few(count),
        )),
        Step::SetLocal(local, _) => Some(vg_firm::Step::SetLocal(local)),
        Step::SetComponentField(field) => Some(store(plan.column(field), width_in(tables, field))),
        Step::SetRegister(address) => Some(vg_firm::Step::WriteDevice(address)),
        Step::SetField(_, field) => Some(store_at(
            plan.column(field),
            first_with(tables, numbers, plan, field),
            width_in(tables, field),
        )),
        Step::SetItem(_, element) => Some(vg_firm::Step::StoreItem(plan.elements(element))),
        Step::Forget => Some(vg_firm::Step::Forget),
        Step::NewObject(_, _, _) => None,
        Step::NewArray(_, _) => None,
        Step::Super(_, _) => None,
    }
}

/// The number of arguments of a call of a delegate.
pub fn delegate_arguments(step: Step) -> Option<u16>
    ensures { result ≡ delegate_arguments step }
{
    match step {
        Step::CallValue(_, count, _) => Some(count),
        _ => None,
    }
}

// A number of arguments in a byte: what passes it is cut, which no packed program has.
fn few(count: u16) -> u8
    ensures { result ≡ min count 255 }
{
    if count < 256 { count as u8 } else { 255 }
}

// A read of a component's field.
fn load(place: Option<ColumnPlace>) -> vg_firm::Step
    ensures { result ≡ pass.load (column_of place) }
{
    match place {
        Some(found) => vg_firm::Step::Load(found.home, found.column),
        None => vg_firm::Step::Number(0),
    }
}

// A write of a component's field: a value that no live method reads is dropped.
fn store(place: Option<ColumnPlace>, width: u8) -> vg_firm::Step
    ensures { result ≡ pass.store (column_of place) width }
{
    match place {
        Some(found) => vg_firm::Step::Store(found.column, width),
        None => vg_firm::Step::Forget,
    }
}

// A read of an object's field; no object has one without a column.
fn load_at(place: Option<ColumnPlace>, first: u16) -> vg_firm::Step
    ensures { result ≡ pass.load_at (column_of place) first }
{
    match place {
        Some(found) => vg_firm::Step::LoadAt(found.home, found.column, first),
        None => vg_firm::Step::LoadNothing,
    }
}

// A write of an object's field: where it is dropped the null check stays.
fn store_at(place: Option<ColumnPlace>, first: u16, width: u8) -> vg_firm::Step
    ensures { result ≡ pass.store_at (column_of place) first width }
{
    match place {
        Some(found) => vg_firm::Step::StoreAt(found.column, first, width),
        None => vg_firm::Step::StoreNothing,
    }
}

// A cast from a type to a type.
fn cast(numbers: &Numbers, plan: &Plan, from: CoreType, to: CoreType) -> Option<vg_firm::Step>
    ensures { done result ≡ pass.cast (layout_by [] numbers.now plan.now) from to }
{
    match to {
        CoreType::IntType => cut(from, to),
        CoreType::CharType => cut(from, to),
        CoreType::RawType(_) => cut(from, to),
        CoreType::ClassType(class) => {
            let span = span_of(numbers, class);
            Some(vg_firm::Step::StopUnlessWithin(span.first, span.count))
        }
        _ => None,
    }
}

// A cast among numbers.
fn cut(from: CoreType, to: CoreType) -> Option<vg_firm::Step>
    ensures { done result ≡ pass.cut (coded.cut_for from to) }
{
    match cut_for(from, to) {
        Some(prefix) => Some(vg_firm::Step::Apply(prefix)),
        None => None,
    }
}

// The number of the first object that has a field.
fn first_with(tables: &Tables, numbers: &Numbers, plan: &Plan, field: u32) -> u16
    ensures { result ≡ layout.first_with tables.now (layout_by [] numbers.now plan.now) field }
{
    match tables.fields.as_slice().get(field as usize) {
        Some(found) => first_of_owner(numbers, found.owner),
        None => 0,
    }
}

// The number of the first object that has what this owner declares.
fn first_of_owner(numbers: &Numbers, owner: Owner) -> u16
    ensures { (x : PlanValue) → result ≡ layout.first_of_owner (layout_by [] numbers.now x) owner }
{
    match owner {
        Owner::InClass(class) => span_of(numbers, class).first,
        Owner::InComponent(_) => 0,
    }
}

// The bytes of a field in its column.
fn width_in(tables: &Tables, field: u32) -> u8
    ensures { (n : NumbersValue) (x : PlanValue) → result ≡ pass.width_in (layout_by [] n x) (tables_of.field_type tables.now field) }
{
    match tables.fields.as_slice().get(field as usize) {
        Some(found) => width_of(found.type_),
        None => 0,
    }
}
