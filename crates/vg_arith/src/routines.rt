// The routines by their numbers.
ghost use Rattle.std.specs.Prelude.{◌≡◌, ◌<◌, IfOk};
ghost use Rattle.vg_arith.specs.Numbers.{routine_with};
ghost use Rattle.vg_arith.specs.Routines.{IsRoutine};

use crate::division::division_routine;
use crate::product::product_routine;
use crate::shifts::{left_shift_routine, right_shift_routine};
use std::alloc::Global;
use vg_base::NoMemory;
use vg_lin::LinProc;

/// How many routines there are.
pub const ROUTINES: u8 = 4;

/// The routine with this number: 0 the product, 1 division, 2 the shift left, 3 the shift right.
pub fn routine(alloc: Global, which: u8) -> Result<LinProc, NoMemory>
    requires { which < 4 }
    ensures routine { IfOk result (λ p. IsRoutine which p) }
    ensures exactly { IfOk result (λ p. p ≡ routine_with which) }
{
    if which == 0 {
        product_routine(alloc)
    } else if which == 1 {
        division_routine(alloc)
    } else if which == 2 {
        left_shift_routine(alloc)
    } else {
        right_shift_routine(alloc)
    }
}
