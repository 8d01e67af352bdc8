// The law of all plain instructions.
ghost use Rattle.std.specs.Prelude.{ℕ, ◌≡◌, ◌+◌, ◌<◌, ◌≤◌, Bool, List, length};
ghost use Rattle.vg_meaning.specs.Outside.{Outside};
ghost use Rattle.avr_isa.specs.Machine.{State as MachineState};
ghost use Rattle.avr_isa.specs.Standing.{widths, AllStandAt};
ghost use Rattle.vg_lin.specs.declared.instr.Plain.{Plain};
ghost use Rattle.vg_lin.specs.Program.{Program};
ghost use Rattle.vg_lin.specs.Steps.{Frame, Goes as GoesOn};
ghost use Rattle.vg_lin.specs.State.{State, plain};
ghost use Rattle.avr_view.specs.Run.{Run, Goes, Front};
ghost use Rattle.avr_view.specs.View.{View, At};
ghost use Rattle.vg_templates.specs.Layouts.{IsLayout};
ghost use Rattle.vg_templates.specs.Frames.{Places};
ghost use Rattle.vg_templates.specs.Pieces.{Sees};
ghost use Rattle.vg_templates.specs.Held.{Held};
ghost use Rattle.vg_templates.specs.Outcomes.{Lies};
ghost use Rattle.vg_templates.specs.Straight.{pushed_by};
ghost use Rattle.vg_templates.specs.Plains.{plain_template};
ghost use Rattle.vg_followed.specs.Tables.{HoldsTables};
ghost use Rattle.vg_followed.specs.Covered.{CanBeCoded};

/// A law of all plain instructions: where linear code goes on from a state to another one, with another outside, the run comes in at least one instruction
/// from where the first state lies to where the second one does, with that outside; or it reaches below the floor, which it does only where the bytes that
/// the instruction pushes are too many.
pub fn plain_templates_lead()
    ensures { (e : Run) (i : Places) → ((m : ℕ) → IsLayout (i.layouts m)) → (m : ℕ) (frames : List (Frame State)) (p : Program)
        → HoldsTables e.flash p.tables → (live behind : ℕ → Bool) (q : Plain) (s next : State) (o : Outside) (v : View) (pc : ℕ) (t : MachineState)
        → plain p q s v.out ≡ GoesOn next o → CanBeCoded (i.layouts m) p live behind q → Front e o → Held i m live s frames v
        → AllStandAt e.flash pc (plain_template (i.layouts m) p q) → pc + widths (plain_template (i.layouts m) p q) < 65536
        → 1 ≤ length (plain_template (i.layouts m) p q) → At e pc v t
        → Goes e (0x1100 < e.floor + length v.stack + pushed_by q) 1 t
        (Sees e (Lies i m behind next frames o) (pc + widths (plain_template (i.layouts m) p q))) }
{}
