// The law that code leaves alone what waits below its own values.
ghost use Rattle.std.specs.Prelude.{List};
ghost use Rattle.vg_meaning.specs.World.{World};
ghost use Rattle.vg_meaning.specs.History.{History, full};
ghost use Rattle.vg_meaning.specs.Code.{Code, performed};
ghost use Rattle.vg_lin.specs.Program.{Program};
ghost use Rattle.vg_lin.specs.State.{State, Waiting};
ghost use Rattle.vg_lin.specs.Meaning.{language};
ghost use Rattle.vg_lin.specs.Structured.{Step, Deciding, Caller, step, truth};
ghost use Rattle.vg_lin_frames.specs.Frames.{IsStraight, over, Above};

/// Code without a loop that gives nothing back does the same where more values wait below those that it finds, and leaves them there.
pub fn what_waits_below_stays()
    ensures { (p : Program) (call : Caller State) (under : List Waiting) (c : Code Step) → IsStraight c → (d : Deciding State) (w : World History)
        → Above under (performed full (step (language p) call) truth c d w) (performed full (step (language p) call) truth c (over under d) w) }
{}
