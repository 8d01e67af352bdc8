// The law of trimmed programs.
ghost use Rattle.std.specs.Prelude.{List};
ghost use Rattle.vg_lin.specs.Program.{Procedure, Program};
ghost use Rattle.vg_expand.specs.Runs.{IsClosed, with_procedures};
ghost use Rattle.vg_trimming.specs.Trimmed.{AreAllTrimmed};
ghost use Rattle.vg_trimming.specs.Runs.{AreBytes, RunsAsRead};

/// A program whose procedures are trimmed, one for one, does what it did: with at least one step that is no push for each that counts (a call, an interrupt
/// that is taken, the call of its handler, and the test of a loop's turn), the same outside, the same calls open at each opening, and the same ending,
/// wherever no run is Wrong. The body is empty: its contract is a law of the definitions.
pub fn trimmed_programs_follow()
    ensures { (p : Program) (new : List Procedure) → AreAllTrimmed p.procedures new → IsClosed p → AreBytes p.ram → AreBytes p.tables
        → RunsAsRead p (with_procedures p new) }
{}
