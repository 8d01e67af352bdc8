// Which types fit, and which types are written.
ghost use Rattle.std.specs.Prelude.{◌≡◌, true, IsTrue};
ghost use Rattle.vg_core.specs.Typing.{Sub};
ghost use Rattle.vg_rules.specs.Fits.{fits};
ghost use Rattle.vg_types_tables.specs.Views.{declarations_at, type_view};
ghost use Rattle.vg_types_tables.specs.Declares.{Declares, IsKnown};
ghost use Rattle.vg_types_tables.specs.Fitting.{fits_where};

use crate::declared::Declared;
use crate::lookups::is_below;
use vg_base::Names;
use vg_core::{CoreType, Tables};
use vg_tree::Node;

/// Whether a value of the first type may stand where one of the second is wanted.
pub fn fits(
    names: &Names,
    root: &Node,
    declared: &Declared,
    type_: CoreType,
    wanted: CoreType,
) -> bool
    requires declares { Declares names.now root.now declared.now }
    requires known { IsKnown declared.now.tables type_ }
    requires wanted { IsKnown declared.now.tables wanted }
    ensures exact { result
        ≡ fits (declarations_at names.now root.now) (type_view names.now declared.now type_) (type_view names.now declared.now wanted) }
    ensures sub { IsTrue result → Sub declared.now.tables type_ wanted }
{
    fits_where(&declared.tables, type_, wanted, type_ == wanted)
}

// Whether a type fits another, where it is told whether they are equal.
fn fits_where(tables: &Tables, type_: CoreType, wanted: CoreType, equal: bool) -> bool
    ensures { result ≡ fits_where tables.now type_ wanted equal }
{
    match type_ {
        CoreType::NoType => false,
        CoreType::ClassType(class) => match wanted {
            CoreType::ClassType(other) => is_below(tables, class, other),
            _ => equal,
        },
        CoreType::NullType => match wanted {
            CoreType::ClassType(_) | CoreType::ArrayType(_) | CoreType::FunctionType(_, _) => true,
            _ => equal,
        },
        _ => equal,
    }
}
