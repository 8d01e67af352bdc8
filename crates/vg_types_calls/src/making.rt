// New objects.
ghost use Rattle.std.specs.Prelude.{◌≡◌, false, IfSome, IfNone};
ghost use Rattle.vg_syntax.specs.Tree.{Node as SpecNode};
ghost use Rattle.vg_source.specs.Resolved.{Scope};
ghost use Rattle.vg_rules.specs.Bodies.{Body, making_keeps};
ghost use Rattle.vg_types_tables.specs.Views.{declarations_at};
ghost use Rattle.vg_types_tables.specs.Declares.{Declares};
ghost use Rattle.vg_types_calls.specs.Calls.{IsMaking};

use crate::call::Called;
use vg_base::Names;
use vg_core::{CoreType, Step};
use vg_tree::Node;
use vg_types_tables::{Declared, class_of};

/// A new object of the class of this name, made with so many arguments. None exactly where there is no such class.
pub fn making_of(
    names: &Names,
    root: &Node,
    declared: &Declared,
    name: &str,
    count: u16,
    id: u32,
) -> Option<Called>
    requires declares { Declares names.now root.now declared.now }
    ensures making { IfSome result (IsMaking names.now root.now declared.now name.now count id) }
    ensures none { IfNone result ((k : Body) (args : SpecNode) (ls : Scope)
        → making_keeps (declarations_at names.now root.now) k name.now args ls ≡ false) }
{
    match class_of(declared, name) {
        Some(class) => Some(Called {
            step: Step::NewObject(id, class, count),
            type_: CoreType::ClassType(class),
        }),
        None => None,
    }
}
