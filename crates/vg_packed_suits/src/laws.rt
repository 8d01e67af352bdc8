// The laws of typed packed programs.
ghost use Rattle.std.specs.Prelude.{length};
ghost use Rattle.vg_codes.specs.Codes.{Codes, AreCodes};
ghost use Rattle.vg_core.specs.declared.heap.Heap.{Heap};
ghost use Rattle.vg_core.specs.Program.{Program};
ghost use Rattle.vg_flatten_shapes.specs.declared.layout.Layout.{Layout as Placed};
ghost use Rattle.vg_live.specs.declared.live_set.LiveSet.{LiveSet};
ghost use Rattle.vg_number.specs.declared.numbers.Numbers.{Numbers};
ghost use Rattle.vg_number.specs.Numbering.{kinds_of};
ghost use Rattle.vg_pack_calls.specs.Asked.{steps_from};
ghost use Rattle.vg_place.specs.declared.placing.Columns.{Columns};
ghost use Rattle.vg_plan.specs.Planned.{HasTables};
ghost use Rattle.vg_packed.specs.declared.program.FirmProgram.{FirmProgram};
ghost use Rattle.vg_packed.specs.Given.{IsGiven};
ghost use Rattle.vg_packed.specs.Packed.{IsPackedFrom};
ghost use Rattle.vg_packed.specs.Plans.{planned};
ghost use Rattle.vg_packed.specs.Ready.{IsReady};
ghost use Rattle.vg_packed_typed.specs.Suits.{Suits};
ghost use Rattle.vg_packed_suits.specs.Standing.{StandIn};
ghost use Rattle.vg_packed_suits.specs.Bodies.{AreTypedWhereCounted, HaveSmallFields};

/// The columns and the tables of a packed program stand in linear code as it says, and its numbers have at most 32 bits. The body is empty: its contract is a
/// law of the definitions, as that below.
pub fn packed_programs_suit()
    ensures { (p : Program) (h : Heap) (s : LiveSet) (n : Numbers) (c : Columns) (f : FirmProgram) → IsGiven p h s n c → IsReady p h
        → HaveSmallFields p.tables → (from : IsPackedFrom p h s n c f) → HasTables p.tables (kinds_of h) s c.list (steps_from p 0 s.methods) from.plan
        → (k : Codes) → AreCodes (length f.procedures) k → (lay : Placed) → StandIn c.list lay → Suits p.tables (planned h n from.plan) k lay }
{}

/// All procedures of a packed program are typed, with as many locals as their methods have, and at most two values more wait in each than its method's body has
/// nodes, where the code of the methods takes and leaves its values in order.
pub fn packed_programs_are_typed()
    ensures { (p : Program) (h : Heap) (s : LiveSet) (n : Numbers) (c : Columns) (f : FirmProgram) → IsGiven p h s n c
        → (from : IsPackedFrom p h s n c f) → HasTables p.tables (kinds_of h) s c.list (steps_from p 0 s.methods) from.plan → AreTypedWhereCounted p h c f }
{}
