// The law of each instruction of code with calls of finders.
ghost use Rattle.std.specs.Prelude.{◌≡◌, ℕ, Bool, true, List, Option, Some};
ghost use Rattle.std.specs.List.{AllByRecursion};
ghost use Rattle.vg_lin.specs.declared.instr.Instr.{Instr};
ghost use Rattle.vg_lin.specs.declared.instr.Instr.TheVariants.{Plain};
ghost use Rattle.vg_lin.specs.declared.instr.Operand.{Operand};
ghost use Rattle.vg_lin.specs.declared.instr.Plain.TheVariants.{Find};
ghost use Rattle.vg_finding.specs.Finders.{call_of, code_found, finder_in};

/// A law of code with calls of finders in place of look-ups. A test that holds of each instruction of the code, and of the call of a finder wherever it holds
/// of the look-up for which the call stands, holds of each instruction then. The body is empty: its contract is a law of the definitions.
pub fn code_keeps_with_finders()
    ensures { (has : Instr → Bool) (numbers : List (Option ℕ))
        → ((d q to : ℕ) (a : Operand) → finder_in numbers d ≡ Some q → has (Plain (Find d to a)) ≡ true → has (call_of q to a) ≡ true)
        → (is : List Instr) → AllByRecursion (λ i. has i ≡ true) is → AllByRecursion (λ i. has i ≡ true) (code_found numbers is) }
{}
