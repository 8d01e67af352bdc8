// The parts of what the pass over names left.
ghost use Rattle.std.specs.Prelude.{◌≡◌};
ghost use Rattle.vg_types_declare.specs.Made.{whole};

use crate::parts::Others;
use vg_base::{Name, Row};
use vg_types_heads::Heads;
use vg_types_views::ByText;

/// The numbers of classes by their names, the names of the classes above classes, and the other names. It takes no memory.
pub(crate) fn parts_of(heads: Heads) -> (ByText<u16>, Row<Option<Name>>, Others)
    ensures { whole result.0 result.1 result.2 ≡ heads }
{
    let Heads {
        classes,
        class_names,
        above,
        components,
        component_names,
        devices,
        registers,
    } = heads;
    let others = Others {
        class_names,
        components,
        component_names,
        devices,
        registers,
    };
    (classes, above, others)
}
