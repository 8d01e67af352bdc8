// Parameters in scope.
ghost use Rattle.std.specs.Prelude.{◌≡◌, IfOk};
ghost use Rattle.vg_types_tables.specs.Declares.{Declares};
ghost use Rattle.vg_types_bodies.specs.Parameters.{params_at, AreParameters};

use std::alloc::Global;
use vg_base::{Names, NoMemory};
use vg_tree::{Node, Param};
use vg_types_tables::{Declared, Locals, written};

/// The parameters of a method or constructor in scope, whose types are written rightly.
pub fn with_parameters(
    alloc: Global,
    names: &Names,
    root: &Node,
    declared: &Declared,
    params: &[Param],
) -> Result<Locals, NoMemory>
    requires declares { Declares names.now root.now declared.now }
    ensures { IfOk result (AreParameters names.now declared.now (params_at names.now params.now)) }
{
    let mut locals = Locals::new(alloc);
    'each: for param in params {
        let type_ = match written(names, root, declared, &param.type_) {
            Some(type_) => type_,
            // All types of the text are in the tables.
            None => return Err(NoMemory),
        };
        // There are at most 60 parameters and locals, so this cannot come.
        if locals.declared.len() > 255 {
            return Err(NoMemory);
        }
        locals.declare(names, declared, param.name, type_)?;
    }
    Ok(locals)
}
