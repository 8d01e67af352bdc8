// The law of linked procedures.
ghost use Rattle.std.specs.Prelude.{ℕ, ◌≡◌, List, Some, slice_get};
ghost use Rattle.avr_instr.specs.declared.instr.Instr.{Instr as Avr};
ghost use Rattle.avr_isa.specs.Standing.{AllStandAt};
ghost use Rattle.avr_view.specs.Run.{Run};
ghost use Rattle.vg_lin.specs.Program.{Procedure, Program};
ghost use Rattle.vg_lin.specs.Sound.{IsSound};
ghost use Rattle.vg_templates.specs.Whole.{Links};
ghost use Rattle.vg_followed.specs.Stands.{ProcedureStands};
ghost use Rattle.vg_laid.specs.Linked.{ProcedureLinked};

/// A law of linked procedures. Where all code stands in flash from a word address on, a sound procedure that is linked in it stands, with its entry and
/// each of its instructions, as the machine needs it. The body is empty: its contract is a law of the definitions.
pub fn linked_procedures_stand()
    ensures { (e : Run) (x : Links) (p : Program) (start : ℕ) (code : List Avr) (m : ℕ) (procedure : Procedure) → AllStandAt e.flash start code
        → IsSound procedure → ProcedureLinked x p start code m procedure → ProcedureStands e x p m procedure }
{}
