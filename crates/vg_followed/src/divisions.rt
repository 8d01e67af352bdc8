// The law of the steps of a division.
ghost use Rattle.std.specs.Prelude.{ℕ, ◌≡◌, ◌<◌, ◌+◌, Bool, List};
ghost use Rattle.vg_meaning.specs.Outside.{Outside};
ghost use Rattle.vg_lin.specs.declared.instr.Operand.{Operand};
ghost use Rattle.vg_lin.specs.Steps.{Frame, Goes as GoesOn};
ghost use Rattle.vg_lin.specs.State.{State, division_steps, divides};
ghost use Rattle.avr_isa.specs.Machine.{State as MachineState};
ghost use Rattle.avr_isa.specs.Standing.{widths, AllStandAt};
ghost use Rattle.avr_view.specs.Run.{Run, Goes};
ghost use Rattle.avr_view.specs.View.{View, At};
ghost use Rattle.vg_templates.specs.Layouts.{IsLayout};
ghost use Rattle.vg_templates.specs.Frames.{Places};
ghost use Rattle.vg_templates.specs.Pieces.{Sees};
ghost use Rattle.vg_templates.specs.Held.{Held};
ghost use Rattle.vg_templates.specs.Outcomes.{Lies};
ghost use Rattle.vg_templates.specs.Divisions.{divides_steps};
ghost use Rattle.vg_followed.specs.Covered.{CanDivide};

/// A law of the template of a division: its loop leads to the state in which remainder and dividend have got what all steps leave in them.
pub fn division_steps_are_made()
    ensures { (e : Run) (i : Places) → ((m : ℕ) → IsLayout (i.layouts m)) → (m : ℕ) (frames : List (Frame State)) (live behind : ℕ → Bool)
        (remainder dividend : ℕ) (a : Operand) → CanDivide (i.layouts m) live behind remainder dividend a → (s t : State) (o : Outside) (v : View) (pc : ℕ)
        (from : MachineState) → divides division_steps remainder dividend a s v.out ≡ GoesOn t o → Held i m live s frames v
        → AllStandAt e.flash pc (divides_steps (i.layouts m) remainder dividend a)
        → pc + widths (divides_steps (i.layouts m) remainder dividend a) < 65536 → At e pc v from
        → Goes e ⊥ 1 from (Sees e (Lies i m behind t frames o) (pc + widths (divides_steps (i.layouts m) remainder dividend a))) }
{}
