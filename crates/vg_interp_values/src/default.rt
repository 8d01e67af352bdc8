// What places hold at first.
ghost use Rattle.std.specs.Prelude.{◌≡◌};
ghost use Rattle.vg_core.specs.Heap.{default};

use vg_core::{CoreType, CoreValue};

/// What a place of this type holds before anything was put there.
pub fn default_of(type_: CoreType) -> CoreValue
    ensures { result ≡ default type_ }
{
    match type_ {
        CoreType::IntType => CoreValue::Int(0),
        CoreType::BoolType => CoreValue::Bool(false),
        CoreType::CharType => CoreValue::Char(0),
        CoreType::RawType(width) => CoreValue::Raw(width, 0),
        CoreType::NullType
        | CoreType::ClassType(_)
        | CoreType::ArrayType(_)
        | CoreType::FunctionType(_, _)
        | CoreType::NoType
        | CoreType::MoreTypes(_, _) => CoreValue::Null,
    }
}
