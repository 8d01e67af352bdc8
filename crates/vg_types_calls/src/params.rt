// The parameters that arguments have to fit.
ghost use Rattle.std.specs.Prelude.{◌≡◌, Some, slice_get, IfOk, IfSome};
ghost use Rattle.std.specs.List.{AllByRecursion};
ghost use Rattle.vg_types_views.specs.ByText.{found};
ghost use Rattle.vg_types_tables.specs.Declares.{IsFormed, IsKnown};
ghost use Rattle.vg_types_calls.specs.Calls.{AreParamsOf, AreParamsOfMethod, AreParamsOfValue, AreMakingParams};

use std::alloc::Global;
use vg_base::{NoMemory, Row};
use vg_core::{CoreType, Method};
use vg_types_functions::params_of;
use vg_types_tables::{Declared, Head, class_of};

/// The types of the parameters of what is called. What cannot be called has none.
pub fn params_behind(
    alloc: Global,
    declared: &Declared,
    head: Head,
) -> Result<Row<CoreType>, NoMemory>
    requires formed { IsFormed declared.now.tables }
    ensures known { IfOk result (λ ts. AllByRecursion (IsKnown declared.now.tables) ts) }
    ensures params { IfOk result (AreParamsOf declared.now head) }
{
    match head {
        Head::OwnMethod(_, _, method) => method_params(alloc, declared, method),
        Head::ItsMethod(method) => method_params(alloc, declared, method),
        Head::Value(type_) => value_params(alloc, declared, type_),
        Head::Nothing | Head::Component(_) | Head::Device(_) => Ok(Row::new(alloc)),
    }
}

// Those of a method.
fn method_params(alloc: Global, declared: &Declared, method: u16) -> Result<Row<CoreType>, NoMemory>
    requires formed { IsFormed declared.now.tables }
    ensures known { IfOk result (λ ts. AllByRecursion (IsKnown declared.now.tables) ts) }
    ensures params { IfOk result (AreParamsOfMethod declared.now method) }
{
    match method_at(declared, method) {
        Some(found) => copied(alloc, found.params.as_slice()),
        // The tables have all methods.
        None => Err(NoMemory),
    }
}

/// The method of this number.
pub(crate) fn method_at(declared: &Declared, method: u16) -> Option<&Method>
    ensures { IfSome result (λ y. slice_get declared.now.tables.methods method ≡ Some y.now) }
{
    declared.tables.methods.as_slice().get(usize::from(method))
}

// Those of a delegate of this type.
fn value_params(
    alloc: Global,
    declared: &Declared,
    type_: CoreType,
) -> Result<Row<CoreType>, NoMemory>
    requires formed { IsFormed declared.now.tables }
    ensures known { IfOk result (λ ts. AllByRecursion (IsKnown declared.now.tables) ts) }
    ensures params { IfOk result (AreParamsOfValue declared.now type_) }
{
    match type_ {
        CoreType::FunctionType(params, _) => match params_of(alloc, declared, params)? {
            Some(types) => Ok(types),
            // The tables have the rows of all function types.
            None => Err(NoMemory),
        },
        CoreType::IntType
        | CoreType::BoolType
        | CoreType::CharType
        | CoreType::RawType(_)
        | CoreType::NullType
        | CoreType::ClassType(_)
        | CoreType::ArrayType(_)
        | CoreType::NoType
        | CoreType::MoreTypes(_, _) => Ok(Row::new(alloc)),
    }
}

/// The types of the parameters of the construction of the class of this name. What is no class has none.
pub fn making_params(
    alloc: Global,
    declared: &Declared,
    name: &str,
) -> Result<Row<CoreType>, NoMemory>
    requires formed { IsFormed declared.now.tables }
    ensures known { IfOk result (λ ts. AllByRecursion (IsKnown declared.now.tables) ts) }
    ensures params { IfOk result (AreMakingParams declared.now (found name.now declared.now.classes)) }
{
    match class_of(declared, name) {
        Some(class) => class_params(alloc, declared, class),
        None => Ok(Row::new(alloc)),
    }
}

// Those of the construction of this class.
fn class_params(alloc: Global, declared: &Declared, class: u16) -> Result<Row<CoreType>, NoMemory>
    requires formed { IsFormed declared.now.tables }
    ensures known { IfOk result (λ ts. AllByRecursion (IsKnown declared.now.tables) ts) }
    ensures params { IfOk result (AreMakingParams declared.now (Some class)) }
{
    match declared.tables.classes.as_slice().get(usize::from(class)) {
        Some(found) => copied(alloc, found.params.as_slice()),
        // The tables have all classes.
        None => Err(NoMemory),
    }
}

// A copy of these types.
fn copied(alloc: Global, types: &[CoreType]) -> Result<Row<CoreType>, NoMemory>
    ensures { IfOk result (λ ts. ts ≡ types.now) }
{
    Ok(Row::from_vec(Vec::from_slice(alloc, types)?))
}
