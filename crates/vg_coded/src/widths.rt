// The law of widths.
ghost use Rattle.std.specs.Prelude.{◌≡◌, ℕ, ◌<◌, true, List, Some};
ghost use Rattle.vg_codes.specs.Codes.{Codes};
ghost use Rattle.vg_core.specs.declared.heap.Cell.{Cell};
ghost use Rattle.vg_core.specs.declared.program.Tables.{Tables};
ghost use Rattle.vg_core.specs.declared.types.CoreType.{CoreType};
ghost use Rattle.vg_core.specs.declared.value.CoreValue.{CoreValue};
ghost use Rattle.vg_core.specs.State.{is_of};
ghost use Rattle.vg_firm.specs.Meaning.{fits};
ghost use Rattle.vg_coded.specs.Numbers.{Numbering, coded};
ghost use Rattle.vg_coded.specs.Widths.{width_of};
ghost use Rattle.vg_coded.specs.Kept.{HasSmallNumbers, IsKept};

/// The number of a value fits into the bytes of its type, where the numbers of cells and procedures have two bytes. The body is empty: its
/// contract is a law of the definitions.
pub fn values_fit()
    ensures { (n : Numbering) (k : Codes) → HasSmallNumbers n k → (p : Tables) (cells : List Cell) (t : CoreType) (v : CoreValue)
        → is_of p cells t v ≡ true → IsKept n v → fits (width_of t) (coded n k v) ≡ true }
{}
