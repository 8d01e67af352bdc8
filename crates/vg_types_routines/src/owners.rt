// The classes above.
ghost use Rattle.std.specs.Prelude.{◌≡◌, IfOk, IfSome};
ghost use Rattle.std.specs.Option.{option_map};
ghost use Rattle.vg_tree.specs.Held.{text_at};
ghost use Rattle.vg_types_tables.specs.Declares.{Declares, IsClass};
ghost use Rattle.vg_types_bodies.specs.Initial.{above_name};

use vg_base::{Name, Names, NoMemory};
use vg_tree::Node;
use vg_types_tables::{Declared, class_of};
use vg_types_views::text_of;

/// The class above, where one is named.
pub(crate) fn class_above(
    names: &Names,
    root: &Node,
    declared: &Declared,
    above: Option<Name>,
) -> Result<Option<u16>, NoMemory>
    requires { Declares names.now root.now declared.now }
    ensures name { IfOk result (λ o. above_name names.now declared.now o ≡ option_map (text_at names.now) above) }
    ensures there { IfOk result (λ o. IfSome o (IsClass declared.now.tables)) }
{
    match above {
        None => Ok(None),
        Some(name) => match class_of(declared, text_of(names, name)) {
            Some(number) => Ok(Some(number)),
            // The rules on classes above one another are asked before, so this cannot come.
            None => Err(NoMemory),
        },
    }
}
