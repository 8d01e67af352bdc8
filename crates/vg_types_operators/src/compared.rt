// Types of which values are compared.
ghost use Rattle.std.specs.Prelude.{◌≡◌, ℕ, true, List, IfOk};
ghost use Rattle.vg_rules.specs.Operands.{is_compared, comparable};
ghost use Rattle.vg_core.specs.declared.types.CoreType.TheVariants.{BoolType};
ghost use Rattle.vg_core.specs.declared.operator.Operator.{Operator};
ghost use Rattle.vg_core.specs.Typing.{Compared, Compares, OpTakes};
ghost use Rattle.vg_types_tables.specs.declared.declared.Declared.{Declared as SpecDeclared};
ghost use Rattle.vg_types_tables.specs.Views.{declarations_at, type_view};
ghost use Rattle.vg_types_tables.specs.Declares.{Declares, IsKnown};

use vg_base::{Names, NoMemory};
use vg_core::CoreType;
use vg_tree::Node;
use vg_types_tables::{Declared, fits};

/// Whether values of two types are compared for sameness.
pub(crate) fn comparable(
    names: &Names,
    root: &Node,
    declared: &Declared,
    left: CoreType,
    right: CoreType,
) -> Result<bool, NoMemory>
    requires declares { Declares names.now root.now declared.now }
    requires left { IsKnown declared.now.tables left }
    requires right { IsKnown declared.now.tables right }
    ensures exact { IfOk result (λ b. b
        ≡ comparable (declarations_at names.now root.now) (type_view names.now declared.now left) (type_view names.now declared.now right)) }
    ensures typed { IfOk result (λ b. b ≡ true → (o : Operator) → Compares o → OpTakes declared.now.tables o left right BoolType) }
{
    let left_is = is_compared(left)?;
    let right_is = is_compared(right)?;
    if !left_is {
        return Ok(false);
    }
    if !right_is {
        return Ok(false);
    }
    if fits(names, root, declared, left, right) {
        return Ok(true);
    }
    Ok(fits(names, root, declared, right, left))
}

// Whether values of a type are compared for sameness.
fn is_compared(type_: CoreType) -> Result<bool, NoMemory>
    ensures exact { (texts : List (List ℕ)) (d : SpecDeclared) → IfOk result (λ b. b ≡ is_compared (type_view texts d type_)) }
    ensures typed { IfOk result (λ b. b ≡ true → Compared type_) }
{
    match type_ {
        CoreType::IntType => Ok(true),
        CoreType::BoolType => Ok(true),
        CoreType::CharType => Ok(true),
        CoreType::RawType(_) => Ok(true),
        CoreType::NullType => Ok(true),
        CoreType::ClassType(_) => Ok(true),
        CoreType::ArrayType(_) => Ok(true),
        CoreType::FunctionType(_, _) => Ok(false),
        CoreType::NoType => Ok(false),
        // No value of a text has a row of types as its type.
        CoreType::MoreTypes(_, _) => Err(NoMemory),
    }
}
