// The laws of plain instructions.
ghost use Rattle.std.specs.Prelude.{ℕ, ◌≡◌, ◌+◌, ◌<◌, Bool, List, [], length};
ghost use Rattle.vg_meaning.specs.Device.{IsDeviceAddress};
ghost use Rattle.vg_meaning.specs.Outside.{Outside};
ghost use Rattle.avr_isa.specs.declared.ending.MachineEnd.TheVariants.{Wants, Stop};
ghost use Rattle.avr_isa.specs.Machine.{State as MachineState};
ghost use Rattle.avr_isa.specs.Standing.{AllStandAt};
ghost use Rattle.vg_lin.specs.declared.instr.Plain.{Plain};
ghost use Rattle.vg_lin.specs.Program.{Program};
ghost use Rattle.vg_lin.specs.Steps.{Frame, Goes as GoesOn};
ghost use Rattle.vg_lin.specs.State.{State, plain};
ghost use Rattle.avr_view.specs.Run.{Run, Goes, Front, Ended};
ghost use Rattle.avr_view.specs.View.{View, At};
ghost use Rattle.vg_templates.specs.Layouts.{Layout, IsLayout};
ghost use Rattle.vg_templates.specs.Frames.{Places};
ghost use Rattle.vg_templates.specs.Pieces.{Takes};
ghost use Rattle.vg_templates.specs.Held.{Held};
ghost use Rattle.vg_templates.specs.Outcomes.{Lies};
ghost use Rattle.vg_templates.specs.Plain.{reads_device};
ghost use Rattle.vg_templates.specs.Straight.{plain_code, IsCovered, pushed_by, stops};

/// A law of the plain instructions for which there is a template: where linear code goes on from a state to another one, with another outside, the code
/// leads from where the first state lies to where the second one does, with that outside; or it reaches below the floor, which it does only where the
/// bytes that the instruction pushes are too many.
pub fn plain_code_follows()
    ensures { (e : Run) (i : Places) → ((m : ℕ) → IsLayout (i.layouts m)) → (m : ℕ) (frames : List (Frame State)) (p : Program)
        (live behind : ℕ → Bool) (q : Plain) (s next : State) (o : Outside) (v : View) → plain p q s v.out ≡ GoesOn next o
        → IsCovered (i.layouts m) live behind q → Front e o → Held i m live s frames v
        → Takes e (0x1100 < e.floor + length v.stack + pushed_by q) v (plain_code (i.layouts m) p.codes.code q) (Lies i m behind next frames o) }
{}

/// Laws of the ends of a run: at the code of a read from a device register with no read left it wants that address; and the code of a stop ends it with
/// this code.
pub fn straight_code_ends()
    ensures wants { (e : Run) (l : Layout) (to address pc : ℕ) (v : View) (t : MachineState) → IsDeviceAddress address
        → AllStandAt e.flash pc (reads_device l to address) → v.out.reads ≡ [] → At e pc v t → Goes e ⊥ 1 t (Ended e (Wants address) v.out) }
    ensures stop { (e : Run) (code pc : ℕ) (v : View) (t : MachineState) → AllStandAt e.flash pc (stops code) → pc + 1 < 65536 → At e pc v t
        → Goes e ⊥ 1 t (Ended e (Stop code) v.out) }
{}
