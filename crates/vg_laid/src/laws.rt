// The laws of programs that are put.
ghost use Rattle.std.specs.Prelude.{ℕ, ◌≡◌, ◌+◌, ◌<◌, List, ◌++◌, length, Some, slice_get};
ghost use Rattle.avr_instr.specs.declared.instr.Instr.{Instr as Avr};
ghost use Rattle.avr_isa.specs.Standing.{widths};
ghost use Rattle.vg_codes.specs.declared.case.Case.{Case};
ghost use Rattle.vg_codes.specs.Codes.{AreCodes};
ghost use Rattle.vg_lin.specs.declared.instr.Instr.{Instr};
ghost use Rattle.vg_lin.specs.Program.{Procedure, Program};
ghost use Rattle.vg_lin.specs.Sound.{IsSound};
ghost use Rattle.vg_covered.specs.Fitting.{IsFit};
ghost use Rattle.vg_put_operations.specs.Coded.{code_from};
ghost use Rattle.vg_put_programs.specs.Programs.{pieces_upto, AreWithin};
ghost use Rattle.vg_laid.specs.Linked.{ProcedureLinked};
ghost use Rattle.vg_laid.specs.Laid.{known, links_of, codes_by, AreSound};

/// Laws of programs that are put three times. There is code for each instruction of sound procedures. Where the code that is put the last time is a piece of all
/// code and stands within 65,535 words, each procedure that is sound and whose instructions are fit is linked in it, by the links that are known from the times
/// before; and the word addresses of entries are code numbers, where the first one is not 0. The body is empty: its contract is a law of the definitions.
pub fn put_programs_are_linked()
    ensures within { (ms : List Procedure) (ds : List (List Case)) → AreSound ms ds → AreWithin ms }
    ensures linked { (ms : List Procedure) (s : ℕ) (ds : List (List Case)) (first : ℕ) (stubs : List ℕ) → s < length ms
        → first + widths (pieces_upto (known ms s ds first) (length ms)) < 65536 → (p : Program) → p.codes.code ≡ code_from (known ms s ds first).codes
        → p.dispatches ≡ ds → (m : ℕ) (procedure : Procedure) → slice_get ms m ≡ Some procedure → m < length ms → IsSound procedure
        → ((pc : ℕ) (i : Instr) → slice_get procedure.code pc ≡ Some i → IsFit p i) → (start : ℕ) (code front rest : List Avr)
        → code ≡ front ++ (pieces_upto (known ms s ds first) (length ms) ++ rest) → first ≡ start + widths front
        → ProcedureLinked (links_of (known ms s ds first) p stubs) p start code m procedure }
    ensures codes { (ms : List Procedure) (s : ℕ) (ds : List (List Case)) (first : ℕ) → s < length ms
        → first + widths (pieces_upto (known ms s ds first) (length ms)) < 65536 → (p : Program) → p.codes.code ≡ code_from (known ms s ds first).codes
        → p.dispatches ≡ ds → ((m : ℕ) (procedure : Procedure) → slice_get ms m ≡ Some procedure → IsSound procedure) → 0 < first → AreCodes (length ms) (codes_by (known ms s ds first).codes) }
{}
