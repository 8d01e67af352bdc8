// The laws of what the routines, the procedure with which a run begins, and the finders take of the stack.
ghost use Rattle.std.specs.Prelude.{ℕ, ◌<◌, ◌≤◌, Bool, List, length};
ghost use Rattle.vg_lin.specs.Program.{Procedure};
ghost use Rattle.vg_expand.specs.Code.{expanded};
ghost use Rattle.vg_finding.specs.Finders.{finder};
ghost use Rattle.vg_flatten.specs.Flattened.{start_of};
ghost use Rattle.vg_frame_costs.specs.Fitting.{IsRoutineWithin, IsStartWithin};
ghost use Rattle.vg_linear.specs.Routines.{standing};

/// What stands for a routine is a routine within 16 bytes, and its code is short: a shift to the right takes so many, a division 13, a product six,
/// and a shift to the left two, and so does the procedure in place of a routine that nothing calls. The body is empty: its contract is a law of the
/// definitions.
pub fn routines_take_few()
    ensures within { (first : ℕ) (ps : List Procedure) (which above : ℕ) → 16 ≤ above → IsRoutineWithin above (standing first ps which) }
    ensures short { (first : ℕ) (ps : List Procedure) (which : ℕ) → length (standing first ps which).code ≤ 65535 }
{}

/// The procedure with which a run begins takes two bytes, and four more when it idles, if the procedure that it calls comes before it; and its code is
/// short. The body is empty: its contract is a law of the definitions.
pub fn starts_take_few()
    ensures within { (first start main below : ℕ) (receives : Bool) → main < start → 6 ≤ below
        → IsStartWithin start below (expanded first (start_of main receives)) }
    ensures short { (first main : ℕ) (receives : Bool) → length (expanded first (start_of main receives)).code ≤ 65535 }
{}

/// The finder of a dispatch is a routine within 16 bytes, and its code is short: it has two instructions, calls nothing, and takes little more than its return
/// address. The body is empty: its contract is a law of the definitions.
pub fn finders_take_few()
    ensures within { (above d : ℕ) → 16 ≤ above → IsRoutineWithin above (finder d) }
    ensures short { (d : ℕ) → length (finder d).code ≤ 65535 }
{}
