// The laws of finders.
ghost use Rattle.std.specs.Prelude.{ℕ, List, Option};
ghost use Rattle.vg_codes.specs.declared.case.Case.{Case};
ghost use Rattle.vg_codes.specs.Codes.{AreCodes};
ghost use Rattle.vg_lin.specs.Program.{Procedure, Program};
ghost use Rattle.vg_lin.specs.Sound.{IsSound};
ghost use Rattle.vg_expand.specs.Runs.{IsClosed, RunsAs};
ghost use Rattle.vg_finding.specs.Finders.{finder, with_finders};
ghost use Rattle.vg_finding.specs.Found.{AreFound, with_dispatches};

/// A law of programs whose procedures look up by finders, or whose dispatches have fewer cases: such a program does what the older one does, with at least as
/// many steps that are no pushes, wherever no run of that is Wrong. The code numbers of its procedures have two bytes. The body is empty: its contract is a
/// law of the definitions.
pub fn found_programs_run_as()
    ensures { (p : Program) (count : ℕ) (ms : List Procedure) (ds : List (List Case)) → AreFound count p.dispatches ds p.procedures ms
        → AreCodes count p.codes → IsClosed p → RunsAs p (with_dispatches p ms ds) }
{}

/// Laws of finders and of procedures that call them: a finder keeps what all procedures keep, and a procedure that keeps it keeps it with calls of finders in
/// place of look-ups. The body is empty: its contract is a law of the definitions.
pub fn finders_are_sound()
    ensures finders { (d : ℕ) → IsSound (finder d) }
    ensures with_finders { (numbers : List (Option ℕ)) (m : Procedure) → IsSound m → IsSound (with_finders numbers m) }
{}
