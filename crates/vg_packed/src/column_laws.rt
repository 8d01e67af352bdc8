// The laws of columns.
ghost use Rattle.std.specs.Prelude.{◌≡◌, ◌<◌, ◌≤◌, ◌+◌, ℕ, Bool, false, List, length, map, Some, slice_get};
ghost use Rattle.vg_codes.specs.Dispatch.{is_within};
ghost use Rattle.vg_core.specs.declared.heap.Heap.{Heap};
ghost use Rattle.vg_core.specs.declared.program.Tables.{Tables};
ghost use Rattle.vg_core.specs.declared.value.CoreValue.{CoreValue};
ghost use Rattle.vg_core.specs.Heap.{kind_of, Place, value_at};
ghost use Rattle.vg_core.specs.Typing.{WellFormed};
ghost use Rattle.vg_packing.specs.Layout.{Layout, Spot, spot};
ghost use Rattle.vg_numbers.specs.Numbers.{AreChains};
ghost use Rattle.vg_packing.specs.Allowed.{IsArray};
ghost use Rattle.vg_packing.specs.Packs.{IsKeptPlace};
ghost use Rattle.vg_placement.specs.declared.column.Column.{Column};
ghost use Rattle.vg_placement.specs.Columns.{bytes_of, address_for, placed, home_bytes};
ghost use Rattle.vg_packed.specs.Apart.{HasColumns, HasNumbers};
ghost use Rattle.vg_packed.specs.Counted.{IsCounted};

/// Two kept places of the heap with one spot are one place. The body is empty: its contract is a law of the definitions, as that below.
pub fn columns_keep_apart()
    ensures { (p : Tables) → WellFormed p → (l : Layout) (kept : ℕ → Bool) (cs : List Column) → HasColumns l kept cs → HasNumbers p l
        → (h : Heap) → map kind_of h.cells ≡ l.kinds → (x y : Place) (v u : CoreValue) (o : Spot) → IsKeptPlace l x → IsKeptPlace l y
        → value_at p h x ≡ Some v → value_at p h y ≡ Some u → spot p l x ≡ Some o → spot p l y ≡ Some o → y ≡ x }
{}

/// Columns of one home stand one behind another without an overlap, within the sum of their bytes.
pub fn columns_stand()
    ensures behind { (ram flash : ℕ) (cs : List Column) (i j : ℕ) (a b : Column) → i < j → slice_get (placed ram flash cs) i ≡ Some a
        → slice_get (placed ram flash cs) j ≡ Some b → a.home ≡ b.home → a.at + bytes_of a ≤ b.at }
    ensures within { (ram flash : ℕ) (cs : List Column) (i : ℕ) (a : Column) → slice_get (placed ram flash cs) i ≡ Some a
        → (address_for a.home ram flash ≤ a.at) × (a.at + bytes_of a ≤ address_for a.home ram flash + home_bytes a.home cs) }
{}

/// A layout whose numbers are by counting has what packing asks of numbers: intervals of classes without null, one number for one kept
/// object of a hierarchy and for one kept array of a type, and numbers of two bytes where there are so few cells.
pub fn counted_numbers_serve()
    ensures numbers { (p : Tables) → AreChains p → (l : Layout) (kept : ℕ → Bool) → IsCounted p l kept → HasNumbers p l }
    ensures no_null { (p : Tables) → AreChains p → (l : Layout) (kept : ℕ → Bool) → IsCounted p l kept → (c : ℕ)
        → is_within (l.first c) (l.count c) 0 ≡ false }
    ensures one_array { (p : Tables) → AreChains p → (l : Layout) (kept : ℕ → Bool) → IsCounted p l kept → (i j t n m : ℕ)
        → IsArray l i t n → IsArray l j t m → l.numbering.number i ≡ l.numbering.number j → i ≡ j }
    ensures two_bytes { (p : Tables) → AreChains p → (l : Layout) (kept : ℕ → Bool) → IsCounted p l kept → length l.kinds < 65536 → (j : ℕ)
        → l.numbering.number j < 65536 }
{}
