// The laws of widths.
ghost use Rattle.std.specs.Prelude.{◌≡◌, ℕ, List, Some, map, slice_get};
ghost use Rattle.vg_syntax.specs.Tree.{Node};
ghost use Rattle.vg_syntax.specs.Reads.{Reads};
ghost use Rattle.vg_source.specs.Names.{Name};
ghost use Rattle.vg_source.specs.Program.{declarations_of};
ghost use Rattle.vg_rules.specs.Legal.{Legal};
ghost use Rattle.vg_source_ranges.specs.Routines.{HaveMembers};
ghost use Rattle.vg_core.specs.declared.program.Method.{Method};
ghost use Rattle.vg_core.specs.Program.{Program};
ghost use Rattle.vg_named_locals.specs.Locals.{HaveLocals};
ghost use Rattle.vg_firm.specs.declared.procedure.Procedure.{Procedure};
ghost use Rattle.vg_firm.specs.Held.{procedure_of};
ghost use Rattle.vg_number.specs.declared.numbers.Numbers.{Numbers};
ghost use Rattle.vg_packing.specs.Allowed.{IsSmall};
ghost use Rattle.vg_pack_bodies.specs.Procedures.{packed_methods};
ghost use Rattle.vg_pack_code.specs.declared.plan.Plan.{Plan};
ghost use Rattle.vg_packed_widths.specs.Locals.{TakeBytes};
ghost use Rattle.vg_packed_widths.specs.Widths.{AllHaveWidths};

/// The parameters and locals of the methods of a typed program take one to four bytes, where they have the types of a text that breaks no rule, and in
/// whose classes and components members alone stand; so do results at most, whose bit strings have at most 32 bits. The body is empty: its contract is
/// a law of the definitions, as that below.
pub fn locals_take_bytes()
    ensures { (bytes : List ℕ) (texts : List Name) (text : Node) (p : Program) → Reads bytes text → Legal text → HaveMembers (declarations_of text)
        → HaveLocals texts text p → ((m : ℕ) (y : Method) → slice_get p.tables.methods m ≡ Some y → IsSmall y.result) → TakeBytes p }
{}

/// Then each of its packed procedures has locals of one to four bytes, no fewer than parameters, and a result of at most four.
pub fn procedures_have_widths()
    ensures { (p : Program) (n : Numbers) (x : Plan) (ms : List Procedure) → TakeBytes p
        → map procedure_of ms ≡ packed_methods p.tables n x 0 p.tables.methods p.methods → AllHaveWidths ms }
{}
