// The laws of stores.
ghost use Rattle.std.specs.Prelude.{◌≡◌, ◌≢◌, List, map, Some};
ghost use Rattle.vg_core.specs.declared.heap.Heap.{Heap};
ghost use Rattle.vg_core.specs.declared.program.Tables.{Tables};
ghost use Rattle.vg_core.specs.declared.value.CoreValue.{CoreValue};
ghost use Rattle.vg_core.specs.Heap.{Place, kind_of, value_at, set_at};
ghost use Rattle.vg_core.specs.Typing.{WellFormed};

/// A store to a place that is there puts the value there, every other place has what it had, and no cell changes its kind: the class
/// of an object, the type and the length of an array. The body is empty: its contract is a law of the definitions.
pub fn stores_change_one_place()
    ensures there { (p : Tables) (h : Heap) (x : Place) (old v : CoreValue) → value_at p h x ≡ Some old → value_at p (set_at p x v h) x ≡ Some v }
    ensures others { (p : Tables) → WellFormed p → (h : Heap) (x y : Place) (v : CoreValue) → y ≢ x → value_at p (set_at p x v h) y ≡ value_at p h y }
    ensures kinds { (p : Tables) (h : Heap) (x : Place) (v : CoreValue) → map kind_of (set_at p x v h).cells ≡ map kind_of h.cells }
{}
