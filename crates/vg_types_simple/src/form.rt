// Code that does nothing.
ghost use Rattle.std.specs.Prelude.{◌≡◌};
ghost use Rattle.vg_meaning.specs.Code.{Nothing};
ghost use Rattle.vg_core.specs.HeldProgram.{code_of};

use std::alloc::Global;
use vg_core::Code;
use vg_types_tables::row;

/// Code that does nothing. It takes no memory.
pub fn nothing(alloc: Global) -> Code
    ensures { code_of result ≡ Nothing }
{
    row(Vec::new(alloc))
}
