// The laws of numbers.
ghost use Rattle.std.specs.Prelude.{◌≡◌, ◌≤◌, ℕ, Bool, true, false, List, length, Some, slice_get};
ghost use Rattle.vg_codes.specs.Dispatch.{is_within};
ghost use Rattle.vg_core.specs.declared.program.Tables.{Tables};
ghost use Rattle.vg_core.specs.Heap.{Kind, ObjectOf, ArrayOf};
ghost use Rattle.vg_core.specs.Tables.{is_below, one_hierarchy};
ghost use Rattle.vg_numbers.specs.Numbers.{AreChains, number, first, count};

/// A kept object is of a class or below it exactly where its number is in the class's interval, for classes of its hierarchy, and null is
/// in none; two kept objects of one hierarchy have different numbers, and so have two kept arrays of one type; no number is more than the
/// number of cells. The body is empty: its contract is a law of the definitions.
pub fn numbers_lie_side_by_side()
    ensures spans { (p : Tables) → AreChains p → (κ : List Kind) (kept : ℕ → Bool) (j d c : ℕ) → slice_get κ j ≡ Some (ObjectOf d) → kept j ≡ true
        → one_hierarchy p d c ≡ true → is_below p d c ≡ is_within (first p κ kept c) (count p κ kept c) (number p κ kept j) }
    ensures no_null { (p : Tables) (κ : List Kind) (kept : ℕ → Bool) (c : ℕ) → is_within (first p κ kept c) (count p κ kept c) 0 ≡ false }
    ensures one_object { (p : Tables) (κ : List Kind) (kept : ℕ → Bool) (i j d e : ℕ) → slice_get κ i ≡ Some (ObjectOf d)
        → slice_get κ j ≡ Some (ObjectOf e) → kept i ≡ true → kept j ≡ true → one_hierarchy p d e ≡ true
        → number p κ kept i ≡ number p κ kept j → i ≡ j }
    ensures one_array { (p : Tables) (κ : List Kind) (kept : ℕ → Bool) (i j t n m : ℕ) → slice_get κ i ≡ Some (ArrayOf t n)
        → slice_get κ j ≡ Some (ArrayOf t m) → kept i ≡ true → kept j ≡ true → number p κ kept i ≡ number p κ kept j → i ≡ j }
    ensures few { (p : Tables) (κ : List Kind) (kept : ℕ → Bool) (j : ℕ) → number p κ kept j ≤ length κ }
{}
