// The law of texts that fit.
ghost use Rattle.std.specs.Prelude.{◌≤◌, ℕ, List, length};
ghost use Rattle.vg_base.specs.Limits.{text_limit};
ghost use Rattle.vg_core.specs.HeldProgram.{program_at};
ghost use Rattle.vg_packed.specs.Given.{IsGiven};
ghost use Rattle.vg_packed.specs.Ready.{IsReady};
ghost use Rattle.vg_text_chip.specs.Chip.{NamesChip};
ghost use Rattle.vg_fits.specs.declared.fitting.Fitted.{Fitted};
ghost use Rattle.vg_fits.specs.Answer.{IsFittedOf};

/// What is answered to a text that fits can be packed: its program, its heap, what is live and where that stands are what packing is given, and are
/// ready; and the program names registers and interrupts of the chip alone. The body is empty: its contract is a law of the definitions.
pub fn fitted_texts_are_given()
    ensures given { (bytes : List ℕ) (clock : ℕ) (f : Fitted) → IsFittedOf bytes clock f → length bytes ≤ text_limit
        → IsGiven (program_at f.alive.start.program) f.alive.start.heap f.alive.live f.placed.numbers f.placed.columns }
    ensures ready { (bytes : List ℕ) (clock : ℕ) (f : Fitted) → IsFittedOf bytes clock f → length bytes ≤ text_limit
        → IsReady (program_at f.alive.start.program) f.alive.start.heap }
    ensures chip { (bytes : List ℕ) (clock : ℕ) (f : Fitted) → IsFittedOf bytes clock f → length bytes ≤ text_limit
        → NamesChip (program_at f.alive.start.program) }
{}
