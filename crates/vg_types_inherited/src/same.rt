// Types that are written and types of the tables.
ghost use Rattle.std.specs.Prelude.{◌≡◌, map, IfSome};
ghost use Rattle.std.specs.List.{AllByRecursion};
ghost use Rattle.vg_tree.specs.Held.{type_at, param_at};
ghost use Rattle.vg_source.specs.Declared.{written_type, row_of};
ghost use Rattle.vg_rules.specs.Fits.{same_type};
ghost use Rattle.vg_types_tables.specs.Views.{type_view, row_view};
ghost use Rattle.vg_types_tables.specs.Declares.{Declares, IsKnown};

use vg_base::Names;
use vg_core::CoreType;
use vg_tree::{Node, Param, TypeTree};
use vg_types_tables::{Declared, written};

/// Whether the type that is written is this one. None where the tables lack it.
pub(crate) fn same(
    names: &Names,
    root: &Node,
    declared: &Declared,
    type_: &TypeTree,
    other: CoreType,
) -> Option<bool>
    requires declares { Declares names.now root.now declared.now }
    requires known { IsKnown declared.now.tables other }
    ensures { IfSome result (λ b. b ≡ same_type (written_type (type_at names.now type_.now)) (type_view names.now declared.now other)) }
{
    match written(names, root, declared, type_) {
        Some(type_) => Some(type_ == other),
        None => None,
    }
}

/// Whether the types of parameters are these. None where the tables lack one. There are at most 60 of them.
pub(crate) fn same_params(
    names: &Names,
    root: &Node,
    declared: &Declared,
    params: &[Param],
    others: &[CoreType],
) -> Option<bool>
    requires declares { Declares names.now root.now declared.now }
    requires known { AllByRecursion (IsKnown declared.now.tables) others.now }
    ensures { IfSome result (λ b. b ≡ same_type (row_of (map (param_at names.now) params.now)) (row_view names.now declared.now others.now)) }
{
    match params {
        [] => Some(others.is_empty()),
        [first, rest @ ..] => match others {
            [] => Some(false),
            [other, more @ ..] => match same(names, root, declared, &first.type_, *other) {
                Some(true) => same_params(names, root, declared, rest, more),
                Some(false) => Some(false),
                None => None,
            },
        },
    }
}
