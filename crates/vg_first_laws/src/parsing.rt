// The law of programs of constants and the grammar.
ghost use Rattle.std.specs.Prelude.{ℕ, List};
ghost use Rattle.vg_base.specs.declared.place.Place.{Place};
ghost use Rattle.vg_first_text.specs.declared.device_write.DeviceWrite.{DeviceWrite};
ghost use Rattle.vg_syntax.specs.Faults.{IsText, NoTreeIn, TooDeepIn};
ghost use Rattle.vg_first_text.specs.FirstText.{IsFirst};

/// Each program of constants is a text of the language, so it has no fault at any place. The body is empty: its contract is a law of the definitions.
pub fn constants_are_texts()
    ensures text { (bytes : List ℕ) (writes : List DeviceWrite) → IsFirst bytes writes → IsText bytes }
    ensures no_fault { (bytes : List ℕ) (writes : List DeviceWrite) → IsFirst bytes writes → (place : Place) → NoTreeIn bytes place → ⊥ }
    ensures not_deep { (bytes : List ℕ) (writes : List DeviceWrite) → IsFirst bytes writes → (place : Place) → TooDeepIn bytes place → ⊥ }
{}
