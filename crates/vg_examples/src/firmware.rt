// The largest of the programs.
ghost use Rattle.std.specs.Prelude.{◌≡◌, [], ◌∷◌, Some, None};
ghost use Rattle.vg_meaning.specs.declared.event.Event.TheVariants.{Write, Enter};
ghost use Rattle.vg_meaning.specs.Ending.{Beyond};
ghost use Rattle.vg_source.specs.Program.{source_of};
ghost use Rattle.vg_examples.specs.Firmware.{firmware};
ghost use Rattle.vg_examples.specs.Writing.{outcome_of};

/// With one tick the firmware sets up its port and takes its first interrupt, whose handler is not called any more.
pub fn firmware_is_cut()
    ensures { outcome_of (source_of firmware) 1000 None [] (15 ∷ []) 1
        ≡ Some (record { trace = Write 0x37 0x02 ∷ Write 0x38 0x00 ∷ Enter 15 ∷ []; ending = Beyond }) }
{}
