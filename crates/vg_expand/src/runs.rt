// The law of expanded programs.
ghost use Rattle.std.specs.Prelude.{ℕ, List};
ghost use Rattle.vg_meaning.specs.Code.{Code};
ghost use Rattle.vg_lin.specs.declared.instr.Call.{Call};
ghost use Rattle.vg_lin.specs.Structured.{Step};
ghost use Rattle.vg_lin.specs.Sessions.{FollowsSessions};
ghost use Rattle.vg_lin.specs.Program.{Procedure, Program};
ghost use Rattle.vg_expand.specs.Expansion.{HasRoutines};
ghost use Rattle.vg_expand.specs.Runs.{with_procedures, AllExpand, IsClosed, RunsAs, FollowsSessionsOf};

/// A program whose procedures are expanded, and that has the routines that are called, does what it did: with at least one step that is no push for each
/// that was none, the same outside, the same calls open at each opening, and the same ending, wherever no run was Wrong.
pub fn expanded_runs()
    ensures { (first : ℕ) (p : Program) (ms : List Procedure) → AllExpand first p.procedures ms → HasRoutines first (with_procedures p ms)
        → IsClosed p → RunsAs p (with_procedures p ms) }
{}

/// What a program follows, another one follows that does what it did: sessions of structured bodies.
pub fn sessions_are_followed()
    ensures { (p n : Program) (bodies : ℕ → Code Step) (c : Call) → RunsAs p n → FollowsSessions p bodies c → FollowsSessionsOf p n bodies c }
{}
