// Types that are being made.
ghost use Rattle.std.specs.Prelude.{◌≡◌, List, ℕ, length, IfOk};
ghost use Rattle.vg_syntax.specs.Made.{arrays};
ghost use Rattle.vg_tree.specs.Held.{type_at};
ghost use Rattle.vg_tree.specs.HeldMade.{types_back};

use crate::TypeTree;
use std::alloc::Global;
use vg_base::{NoMemory, Place};

/// The type of a row that is made.
pub fn row_of_types(types: Vec<TypeTree>) -> TypeTree
    ensures { (texts : List (List ℕ)) → type_at texts result ≡ types_back texts types.items }
{
    let mut types = types;
    types.reverse();
    TypeTree::Row(types)
}

/// A type with the array levels over it.
pub fn array_of(alloc: Global, levels: Vec<Place>, element: TypeTree) -> Result<TypeTree, NoMemory>
    ensures { (texts : List (List ℕ)) → IfOk result (λ t. type_at texts t ≡ arrays (length levels.items) (type_at texts element)) }
{
    let element = Box::new(alloc, element)?;
    Ok(TypeTree::Array(levels.len(), element))
}
