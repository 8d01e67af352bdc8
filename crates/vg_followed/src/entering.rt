// The law of the start of a run.
ghost use Rattle.std.specs.Prelude.{ℕ, ◌≡◌, ◌+◌, ◌<◌, [], ◌∷◌, length, Some, slice_get};
ghost use Rattle.vg_meaning.specs.Outside.{AreVectors};
ghost use Rattle.avr_isa.specs.Machine.{State as MachineState};
ghost use Rattle.vg_lin.specs.Meaning.{at_start};
ghost use Rattle.vg_lin.specs.Program.{Procedure, Program};
ghost use Rattle.avr_view.specs.Run.{Run, Goes};
ghost use Rattle.avr_view.specs.View.{View, At};
ghost use Rattle.vg_templates.specs.Whole.{Links};
ghost use Rattle.vg_followed.specs.Related.{Related};
ghost use Rattle.vg_followed.specs.Stands.{Stands};

/// A law of the start: where the machine is at the entry of the first procedure, which has no parameters, with a return address alone on the stack, zero in
/// r1 and the columns in the static area, the run comes to a state of the configuration in which a run of linear code begins; or it reaches below the
/// floor, which it does only where the saved registers and the slots are too many.
pub fn starts_are_matched()
    ensures { (e : Run) (x : Links) (p : Program) → Stands e x p → (m : Procedure) → slice_get p.procedures p.start ≡ Some m → m.params ≡ 0
        → (a b : ℕ) (v : View) (s : MachineState) → AreVectors v.out.interrupts → v.regs.of 1 ≡ 0 → v.static ≡ p.ram → v.stack ≡ a ∷ b ∷ []
        → At e (x.entry p.start) v s
        → Goes e (0x1100 < e.floor + length v.stack + length (x.places.layouts p.start).saved + (x.places.layouts p.start).slots) 0 s
        (Related e x p (at_start p v.out)) }
{}
