// The laws of code that is fit.
ghost use Rattle.std.specs.Prelude.{ℕ, ◌≡◌, Bool, true, List, Option, Some, slice_get};
ghost use Rattle.std.specs.List.{AllByRecursion};
ghost use Rattle.vg_codes.specs.Dispatch.{cases_of};
ghost use Rattle.vg_firm.specs.Program.{Procedure as FirmProcedure};
ghost use Rattle.vg_lin.specs.declared.instr.Instr.{Instr};
ghost use Rattle.vg_lin.specs.Program.{Procedure, Program};
ghost use Rattle.vg_arith.specs.Simple.{are_simple};
ghost use Rattle.vg_arith.specs.Numbers.{routine_with};
ghost use Rattle.vg_expand.specs.Code.{expanded};
ghost use Rattle.vg_apt.specs.Apt.{AreApt};
ghost use Rattle.vg_finding.specs.Finders.{finder, with_finders};
ghost use Rattle.vg_flatten_shapes.specs.declared.layout.Layout.{Layout};
ghost use Rattle.vg_flatten.specs.Flattened.{IsFlat, start_of};
ghost use Rattle.vg_flat_each.specs.Each.{EachStep};
ghost use Rattle.vg_followed.specs.Tables.{AreCases};
ghost use Rattle.vg_covered.specs.Fitting.{IsFit};
ghost use Rattle.vg_fit_code.specs.Making.{CodeApt, IsMade, IsStepFit};

/// Laws of the code of a program. What a packed procedure becomes whose steps are fit is fit but for its arithmetic, and so is code that is fit; where
/// arithmetic is expanded, it is fit; and so are the routines, and the procedure with which a run begins. Code is fit that is so but for its arithmetic
/// and needs no routine; and then each of its instructions is fit. What a packed procedure becomes that reads and writes device registers alone does so
/// too; and code that does so is fit but for its arithmetic, where the numbers of all dispatches have two bytes. Fit code is fit with calls of finders in place
/// of look-ups, and so is the finder of a dispatch whose numbers have two bytes. The body is empty: its contract is a law of the definitions.
pub fn code_is_fit()
    ensures flattened { (p : Program) (lay : Layout) (m : FirmProcedure) (new : Procedure) → IsFlat lay m new → EachStep (IsStepFit p) m.body
        → AllByRecursion (IsMade p) new.code }
    ensures apt { (lay : Layout) (m : FirmProcedure) (new : Procedure) → IsFlat lay m new → CodeApt m.body → AreApt new.code }
    ensures made { (p : Program) → ((place : ℕ) → AreCases p.codes.code (cases_of (slice_get p.dispatches place))) → (code : List Instr) → AreApt code
        → AllByRecursion (IsMade p) code }
    ensures eased { (p : Program) (code : List Instr) → AllByRecursion (IsFit p) code → AllByRecursion (IsMade p) code }
    ensures expanded { (p : Program) (first : ℕ) (m : Procedure) → AllByRecursion (IsMade p) m.code → AllByRecursion (IsFit p) (expanded first m).code }
    ensures routines { (p : Program) (which : ℕ) → AllByRecursion (IsFit p) (routine_with which).code }
    ensures start { (p : Program) (main : ℕ) (receives : Bool) → AllByRecursion (IsFit p) (start_of main receives).code }
    ensures simple { (p : Program) (code : List Instr) → are_simple code ≡ true → AllByRecursion (IsMade p) code → AllByRecursion (IsFit p) code }
    ensures each { (p : Program) (code : List Instr) → AllByRecursion (IsFit p) code → (at : ℕ) (i : Instr) → slice_get code at ≡ Some i → IsFit p i }
    ensures found { (p : Program) (numbers : List (Option ℕ)) (m : Procedure) → AllByRecursion (IsFit p) m.code
        → AllByRecursion (IsFit p) (with_finders numbers m).code }
    ensures finders { (p : Program) (d : ℕ) → AreCases p.codes.code (cases_of (slice_get p.dispatches d)) → AllByRecursion (IsFit p) (finder d).code }
{}
