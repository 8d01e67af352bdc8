// The law of coverage.
ghost use Rattle.std.specs.Prelude.{ℕ, ◌≡◌, Some, slice_get};
ghost use Rattle.vg_lin.specs.declared.instr.Instr.{Instr};
ghost use Rattle.vg_lin.specs.Program.{Procedure, Program};
ghost use Rattle.vg_lin.specs.Sound.{IsSound};
ghost use Rattle.vg_templates.specs.Framed.{framed, live_in};
ghost use Rattle.vg_followed.specs.Covered.{Covers};
ghost use Rattle.vg_covered.specs.Fitting.{IsFit};

/// A law of procedures and the layouts that say where their locals lie: what the template of each instruction asks of the layout is granted where it stands.
/// The body is empty: its contract is a law of the definitions.
pub fn sound_code_is_covered()
    ensures { (p : Program) (m : Procedure) → IsSound m → (pc : ℕ) (i : Instr) → slice_get m.code pc ≡ Some i → IsFit p i
        → Covers (framed m) (live_in m) p m.result pc i }
{}
