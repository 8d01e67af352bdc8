// Calls.
ghost use Rattle.std.specs.Prelude.{◌≡◌, ℕ, false, IfOk, IfSome, IfNone};
ghost use Rattle.vg_syntax.specs.Tree.{Node as SpecNode};
ghost use Rattle.vg_source.specs.Resolved.{Scope};
ghost use Rattle.vg_rules.specs.Bodies.{Body, call_keeps};
ghost use Rattle.vg_core.specs.declared.types.CoreType.TheVariants.{FunctionType};
ghost use Rattle.vg_types_tables.specs.declared.judged.Head.TheVariants.{OwnMethod, ItsMethod, Value};
ghost use Rattle.vg_types_tables.specs.Views.{head_view};
ghost use Rattle.vg_types_tables.specs.Declares.{Declares, IsKnown};
ghost use Rattle.vg_types_tables.specs.Promises.{IsHead, IsOwnMethod, IsItsMethod};
ghost use Rattle.vg_types_calls.specs.Calls.{IsCall};

use crate::params::method_at;
use vg_base::{Names, NoMemory};
use vg_core::{CoreType, Step};
use vg_tree::Node;
use vg_types_tables::{Declared, Head, number_of, type_of_number};

/// A step behind arguments, and the type of the value that it leaves.
#[derive(Clone, Copy, Debug, PartialEq, Eq)]
pub struct Called {
    pub step: Step,
    pub type_: CoreType,
}

/// A call with so many arguments of what is left. None exactly where it cannot be called.
pub fn call_of(
    names: &Names,
    root: &Node,
    declared: &Declared,
    head: Head,
    count: u16,
    id: u32,
) -> Result<Option<Called>, NoMemory>
    requires declares { Declares names.now root.now declared.now }
    requires head { IsHead names.now declared.now head }
    ensures call { IfOk result (λ o. IfSome o (IsCall names.now declared.now head count id)) }
    ensures none { IfOk result (λ o. IfNone o ((ds : SpecNode) (k : Body) (args : SpecNode) (ls : Scope)
        → call_keeps ds k args (head_view names.now declared.now head) ls ≡ false)) }
{
    match head {
        Head::OwnMethod(_, class, method) => Ok(Some(own_call(
            names, root, declared, class, method, count, id,
        )?)),
        Head::ItsMethod(method) => Ok(Some(its_call(names, root, declared, method, count, id)?)),
        Head::Value(type_) => value_call(names, root, declared, type_, count, id),
        Head::Nothing | Head::Component(_) | Head::Device(_) => Ok(None),
    }
}

// A call of a method of the object that waits.
fn own_call(
    names: &Names,
    root: &Node,
    declared: &Declared,
    class: u16,
    method: u16,
    count: u16,
    id: u32,
) -> Result<Called, NoMemory>
    requires declares { Declares names.now root.now declared.now }
    requires own { IsOwnMethod names.now declared.now class method }
    ensures { (at : ℕ) → IfOk result (IsCall names.now declared.now (OwnMethod at class method) count id) }
{
    match method_at(declared, method) {
        Some(found) => Ok(Called {
            step: Step::CallMethod(id, class, found.selector, count),
            type_: found.result,
        }),
        // The tables have all methods.
        None => Err(NoMemory),
    }
}

// A call of a method of a component.
fn its_call(
    names: &Names,
    root: &Node,
    declared: &Declared,
    method: u16,
    count: u16,
    id: u32,
) -> Result<Called, NoMemory>
    requires declares { Declares names.now root.now declared.now }
    requires its { IsItsMethod declared.now method }
    ensures { IfOk result (IsCall names.now declared.now (ItsMethod method) count id) }
{
    match method_at(declared, method) {
        Some(found) => Ok(Called {
            step: Step::CallComponent(method, count),
            type_: found.result,
        }),
        // The tables have all methods.
        None => Err(NoMemory),
    }
}

// A call of a value. None exactly where it is no delegate.
fn value_call(
    names: &Names,
    root: &Node,
    declared: &Declared,
    type_: CoreType,
    count: u16,
    id: u32,
) -> Result<Option<Called>, NoMemory>
    requires declares { Declares names.now root.now declared.now }
    requires known { IsKnown declared.now.tables type_ }
    ensures call { IfOk result (λ o. IfSome o (IsCall names.now declared.now (Value type_) count id)) }
    ensures none { IfOk result (λ o. IfNone o ((ds : SpecNode) (k : Body) (args : SpecNode) (ls : Scope)
        → call_keeps ds k args (head_view names.now declared.now (Value type_)) ls ≡ false)) }
{
    match type_ {
        CoreType::FunctionType(params, value) => Ok(Some(delegate_call(
            names, root, declared, params, value, count, id,
        )?)),
        CoreType::IntType
        | CoreType::BoolType
        | CoreType::CharType
        | CoreType::RawType(_)
        | CoreType::NullType
        | CoreType::ClassType(_)
        | CoreType::ArrayType(_)
        | CoreType::NoType
        | CoreType::MoreTypes(_, _) => Ok(None),
    }
}

// A call of a delegate, from the numbers of its function type.
fn delegate_call(
    names: &Names,
    root: &Node,
    declared: &Declared,
    params: u32,
    value: u32,
    count: u16,
    id: u32,
) -> Result<Called, NoMemory>
    requires declares { Declares names.now root.now declared.now }
    requires known { IsKnown declared.now.tables (FunctionType params value) }
    ensures { IfOk result (IsCall names.now declared.now (Value (FunctionType params value)) count id) }
{
    match number_of(declared, CoreType::FunctionType(params, value)) {
        Some(number) => match type_of_number(declared, value) {
            Some(type_) => Ok(Called {
                step: Step::CallValue(id, count, number),
                type_,
            }),
            // The tables have the types of all results.
            None => Err(NoMemory),
        },
        // The tables have the types of all delegates.
        None => Err(NoMemory),
    }
}
