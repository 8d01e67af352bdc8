// Values, and tests of their types.
ghost use Rattle.std.specs.Prelude.{◌≡◌, IfOk, IsTrue};
ghost use Rattle.vg_meaning.specs.Code.{Nothing, Then, Do};
ghost use Rattle.vg_source.specs.Resolved.{IsValue};
ghost use Rattle.vg_rules.specs.Bodies.{is_bool};
ghost use Rattle.vg_rules.specs.Inherited.{has_no_type};
ghost use Rattle.vg_core.specs.declared.types.CoreType.TheVariants.{BoolType, NoType};
ghost use Rattle.vg_core.specs.declared.step.Step.TheVariants.{Put};
ghost use Rattle.vg_core.specs.HeldProgram.{code_of};
ghost use Rattle.vg_core.specs.Heap.{default};
ghost use Rattle.vg_types_tables.specs.Views.{type_view};

use std::alloc::Global;
use vg_base::{Names, NoMemory};
use vg_core::{Code, CoreType, CoreValue, Step};
use vg_types_tables::{Declared, row};

/// What a place of this type holds before anything is put there.
pub(crate) fn default_of(type_: CoreType) -> CoreValue
    ensures { result ≡ default type_ }
{
    match type_ {
        CoreType::IntType => CoreValue::Int(0),
        CoreType::BoolType => CoreValue::Bool(false),
        CoreType::CharType => CoreValue::Char(0),
        CoreType::RawType(width) => CoreValue::Raw(width, 0),
        _ => CoreValue::Null,
    }
}

/// The code that stands for a value of this type that is not written.
pub(crate) fn unwritten(alloc: Global, type_: CoreType) -> Result<Code, NoMemory>
    ensures { IfOk result (λ c. code_of c ≡ Then (Do (Put (default type_))) Nothing) }
{
    let mut codes = Vec::with_capacity(alloc, 1)?;
    codes.push(Code::Do(Step::Put(default_of(type_))))?;
    Ok(row(codes))
}

/// Whether there is no type.
pub(crate) fn is_no_type(names: &Names, declared: &Declared, type_: CoreType) -> bool
    ensures exact { result ≡ has_no_type (type_view names.now declared.now type_) }
    ensures none { IsTrue result → type_ ≡ NoType }
{
    match type_ {
        CoreType::NoType => true,
        _ => false,
    }
}

/// Whether a value of this type is a truth value.
pub fn is_bool(names: &Names, declared: &Declared, type_: CoreType) -> bool
    ensures exact { result ≡ is_bool (IsValue (type_view names.now declared.now type_)) }
    ensures bool { IsTrue result → type_ ≡ BoolType }
{
    match type_ {
        CoreType::BoolType => true,
        _ => false,
    }
}
