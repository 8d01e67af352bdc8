// The laws of how many words the code of instructions takes, and that of prologues.
ghost use Rattle.std.specs.Prelude.{ℕ, ◌≤◌, length, slice_get};
ghost use Rattle.std.specs.List.{AllByRecursion};
ghost use Rattle.avr_isa.specs.Standing.{widths};
ghost use Rattle.vg_codes.specs.Dispatch.{cases_of};
ghost use Rattle.vg_lin.specs.declared.instr.Instr.{Instr};
ghost use Rattle.vg_lin.specs.Program.{Procedure, Program};
ghost use Rattle.vg_lin.specs.Sound.{IsSound, waits_of};
ghost use Rattle.vg_templates.specs.Layouts.{Layout};
ghost use Rattle.vg_templates.specs.Linkage.{prologue};
ghost use Rattle.vg_templates.specs.Framed.{framed, CanBeFramed};
ghost use Rattle.vg_templates.specs.Whole.{Links, template};
ghost use Rattle.vg_instr_words.specs.Words.{IsNarrow, instr_words};
ghost use Rattle.vg_instr_words.specs.Entries.{prologue_words, entry_words};

/// The code of an instruction takes at most so many words, whatever the layout of its procedure is and however far it leads, where a local has at most
/// four bytes, at most eight registers are saved, and each value that waits has at most four bytes; and so it is in a procedure that is sound and can be
/// framed. The body is empty: its contract is a law of the definitions.
pub fn instructions_take_few_words()
    ensures words { (x : Links) (p : Program) (m pc : ℕ) (i : Instr) → IsNarrow (x.places.layouts m) → AllByRecursion (λ (w : ℕ). w ≤ 4) (x.waits m pc)
        → widths (template x p m pc i) ≤ instr_words (λ d. length (cases_of (slice_get p.dispatches d))) i }
    ensures layouts { (m : Procedure) → CanBeFramed m.widths m.params → IsNarrow (framed m) }
    ensures waits { (m : Procedure) (pc : ℕ) → IsSound m → AllByRecursion (λ (w : ℕ). w ≤ 4) (waits_of m pc) }
{}

/// The prologue of a procedure takes at most 14 words, and for each parameter that arrives in registers at most three more than it has bytes; so no more
/// than 34 in all, since at most four parameters of at most eight bytes arrive. The body is empty: its contract is a law of the definitions.
pub fn prologues_take_few_words()
    ensures layouts { (l : Layout) → IsNarrow l → widths (prologue l) ≤ prologue_words l }
    ensures framed { (m : Procedure) → CanBeFramed m.widths m.params → widths (prologue (framed m)) ≤ entry_words m }
    ensures most { (m : Procedure) → CanBeFramed m.widths m.params → entry_words m ≤ 34 }
{}
