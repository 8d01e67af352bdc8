// The laws that linear code follows structured code.
ghost use Rattle.std.specs.Prelude.{◌≡◌, ℕ, List, None, slice_get};
ghost use Rattle.vg_meaning.specs.History.{full};
ghost use Rattle.vg_meaning.specs.Code.{Code, performed};
ghost use Rattle.vg_lin.specs.declared.instr.Call.{Call};
ghost use Rattle.vg_lin.specs.declared.instr.Instr.{Instr};
ghost use Rattle.vg_lin.specs.Steps.{Frame, Language, code_of};
ghost use Rattle.vg_lin.specs.Structured.{Step, Caller, step, truth, called};
ghost use Rattle.vg_lin.specs.Stands.{Goal, Stands, AllStand, StandsFirst};
ghost use Rattle.vg_lin.specs.Follows.{FollowsFrom, FollowsCalls, FollowsRun};
ghost use Rattle.vg_lin.specs.Program.{Program};
ghost use Rattle.vg_lin.specs.Meaning.{language, codes_in};
ghost use Rattle.vg_lin.specs.Sessions.{FollowsSessions};

/// Where the linear code of structured code stands, it follows it: it comes to the same places in the same states, with at least one
/// step that counts for each tick, the same outside and the same calls open at each opening.
pub fn code_follows<S>()
    ensures { (l : Language S) (procs : List (List Instr)) (go : Caller S) → FollowsCalls l procs go
        → (m x y at : ℕ) (f : Frame S) (fs : List (Frame S)) (c : Code Step) (g : Goal) → Stands (code_of (slice_get procs m)) x y c at g
        → FollowsFrom l procs m f fs at g x y (performed full (step l go) truth c) }
{}

/// Where the linear code of all bodies stands, it follows every call.
pub fn calls_follow<S>()
    ensures { (l : Language S) (procs : List (List Instr)) (bodies : ℕ → Code Step) → AllStand procs bodies
        → (n : ℕ) → FollowsCalls l procs (called l bodies n) }
{}

/// Where also the procedure stands with which a run begins, linear code follows whole runs: where the structured run is over, for a
/// legal reason, the run comes to its end in the same outside, having opened the same calls; where the structured run only has no
/// tick left, or passed its limit of active calls, it has come as far and goes on.
pub fn runs_follow<S>()
    ensures { (l : Language S) (procs : List (List Instr)) (bodies : ℕ → Code Step) (m : ℕ) (c : Call)
        → AllStand procs bodies → StandsFirst (code_of (slice_get procs m)) c → l.named m ≡ None → FollowsRun l procs bodies m c }
{}

/// The same of a program, over its own runs.
pub fn programs_follow()
    ensures { (p : Program) (bodies : ℕ → Code Step) (c : Call) → AllStand (codes_in p.procedures) bodies
        → StandsFirst (code_of (slice_get (codes_in p.procedures) p.start)) c → (language p).named p.start ≡ None → FollowsSessions p bodies c }
{}
