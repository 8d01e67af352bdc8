// The number of an object, by its class.
ghost use Rattle.std.specs.Prelude.{◌≡◌, ◌+◌, ℕ, Bool, true, List, Some, slice_get};
ghost use Rattle.vg_core.specs.declared.program.Class.{Class};
ghost use Rattle.vg_core.specs.declared.program.Tables.{Tables};
ghost use Rattle.vg_core.specs.Heap.{Kind, ObjectOf};
ghost use Rattle.vg_number.specs.Counting.{own_before};
ghost use Rattle.vg_numbers.specs.Numbers.{AreChains, number, first};

/// The number of a kept object is the first number of its class, and one more for each kept object of this very class that was made before
/// it: a class's own objects come before those of the classes below it. The body is empty: its contract is a law of the definitions.
pub fn own_objects_come_first()
    ensures { (p : Tables) → AreChains p → (κ : List Kind) (kept : ℕ → Bool) (j c : ℕ) (k : Class) → slice_get p.classes c ≡ Some k
        → slice_get κ j ≡ Some (ObjectOf c) → kept j ≡ true → number p κ kept j ≡ first p κ kept c + own_before c kept 0 κ j }
{}
