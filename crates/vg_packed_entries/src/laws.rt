// The laws of the procedures of components and of entries.
ghost use Rattle.std.specs.Prelude.{◌≡◌, ℕ, Some, map};
ghost use Rattle.vg_codes.specs.Codes.{Codes};
ghost use Rattle.vg_core.specs.declared.heap.Heap.{Heap};
ghost use Rattle.vg_core.specs.declared.program.Owner.TheVariants.{InComponent};
ghost use Rattle.vg_core.specs.declared.program.Tables.{Tables};
ghost use Rattle.vg_core.specs.Program.{Body, Program, Signature};
ghost use Rattle.vg_core.specs.Typing.{IsEntry, TypedBody};
ghost use Rattle.vg_firm.specs.Held.{procedure_of};
ghost use Rattle.vg_live.specs.declared.live_set.LiveSet.{LiveSet};
ghost use Rattle.vg_number.specs.declared.numbers.Numbers.{Numbers};
ghost use Rattle.vg_packing.specs.Layout.{Layout};
ghost use Rattle.vg_packing.specs.Pass.{packed};
ghost use Rattle.vg_place.specs.declared.placing.Columns.{Columns};
ghost use Rattle.vg_packed.specs.declared.program.FirmProgram.{FirmProgram};
ghost use Rattle.vg_packed.specs.Given.{IsGiven};
ghost use Rattle.vg_packed.specs.Packed.{IsPackedFrom};
ghost use Rattle.vg_packed.specs.Plans.{planned};
ghost use Rattle.vg_packed.specs.Programs.{handler_in};
ghost use Rattle.vg_packed.specs.Ready.{IsReady};
ghost use Rattle.vg_flat_each.specs.Each.{EachStep};
ghost use Rattle.vg_flat_names.specs.Names.{NoReceiver};
ghost use Rattle.vg_packed_entries.specs.Entries.{TakesNothing};

/// A law of packing. No step of the procedure of a component's method names a receiver, where its code is typed. The body is empty: its contract is a law of
/// the definitions, as that below.
pub fn components_name_no_receiver()
    ensures { (p : Tables) (l : Layout) (k : Codes) (m component : ℕ) (g : Signature) (b : Body) → g.owner ≡ InComponent component → TypedBody p g b
        → EachStep NoReceiver (packed p l k m g b).body }
{}

/// A law of packed programs. The procedure of an entry has no parameters, but for a receiver, and no step of it names that; and so it is with the procedure of
/// each interrupt.
pub fn entries_take_nothing()
    ensures entries { (p : Program) (h : Heap) (s : LiveSet) (n : Numbers) (c : Columns) (f : FirmProgram) → IsGiven p h s n c → IsReady p h
        → (from : IsPackedFrom p h s n c f) → (m q : ℕ) → IsEntry p m → (planned h n from.plan).numbering.procedure m ≡ Some q
        → TakesNothing (map procedure_of f.procedures) q }
    ensures handlers { (p : Program) (h : Heap) (s : LiveSet) (n : Numbers) (c : Columns) (f : FirmProgram) → IsGiven p h s n c → IsReady p h
        → IsPackedFrom p h s n c f → (vector q : ℕ) → handler_in f.handlers vector ≡ Some q → TakesNothing (map procedure_of f.procedures) q }
{}
