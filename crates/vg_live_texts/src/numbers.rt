// The numbers of methods.
ghost use Rattle.std.specs.Prelude.{◌≡◌, ◌<◌, ℕ, List, Some, slice_get};
ghost use Rattle.vg_source.specs.Names.{Name};
ghost use Rattle.vg_source.specs.Program.{with_numbers};
ghost use Rattle.vg_source.specs.Steps.{Method, Routine};

/// A method that stands before another has a lesser number.
pub fn numbers_in_order()
    ensures { (n : ℕ) (all : List Routine) (i j : ℕ) (r s : Routine) (c m d x : Name) → i < j → slice_get (with_numbers n all) i ≡ Some r
        → slice_get (with_numbers n all) j ≡ Some s → r.target ≡ Method c m → s.target ≡ Method d x → r.number < s.number }
{}
