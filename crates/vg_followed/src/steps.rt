// The law of one step.
ghost use Rattle.std.specs.Prelude.{◌≡◌, ◌+◌, ◌<◌, None};
ghost use Rattle.avr_isa.specs.Machine.{State as MachineState};
ghost use Rattle.vg_lin.specs.Program.{Program};
ghost use Rattle.vg_lin.specs.State.{State};
ghost use Rattle.vg_lin.specs.Steps.{Config};
ghost use Rattle.avr_view.specs.Run.{Run, Goes};
ghost use Rattle.vg_templates.specs.Whole.{Links};
ghost use Rattle.vg_followed.specs.Depth.{depth};
ghost use Rattle.vg_followed.specs.Stands.{Stands};
ghost use Rattle.vg_followed.specs.Related.{Related};
ghost use Rattle.vg_followed.specs.Followed.{next, Owes};

/// A law of steps, for each instruction of linear code and for the call of an interrupt's handler: from a state of the machine that is one of a
/// configuration, the run comes in at least one instruction to one of the next configuration; or it reaches below the floor, which it does only where the
/// bytes of the stack are too many. It owes nothing where the next configuration is a wrong one.
pub fn steps_are_matched()
    ensures { (e : Run) (x : Links) (p : Program) → Stands e x p → (c : Config State) (s : MachineState) → c.ending ≡ None → Owes e p c → Related e x p c s
        → Goes e (0x1100 < e.floor + depth x.places p c) 1 s (Related e x p (next p c)) }
{}
