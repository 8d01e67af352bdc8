// The law of typed packed code.
ghost use Rattle.std.specs.Prelude.{◌≡◌, ◌≤◌, ℕ, List, [], false, length};
ghost use Rattle.vg_meaning.specs.Shapes.{Fits};
ghost use Rattle.vg_code_counts.specs.Counted.{Counted};
ghost use Rattle.vg_codes.specs.Codes.{Codes};
ghost use Rattle.vg_core.specs.declared.program.Tables.{Tables};
ghost use Rattle.vg_core.specs.Program.{Body, Signature};
ghost use Rattle.vg_core.specs.Typing.{locals_of};
ghost use Rattle.vg_firm.specs.Program.{Program as FirmProgram};
ghost use Rattle.vg_flatten_shapes.specs.declared.layout.Layout.{Layout as Placed};
ghost use Rattle.vg_firm_typed_any.specs.TypedFor.{IsTypedFor};
ghost use Rattle.vg_packing.specs.Layout.{Layout};
ghost use Rattle.vg_packing.specs.Pass.{packed};
ghost use Rattle.vg_packing.specs.Allowed.{allowing};
ghost use Rattle.vg_packed_typed.specs.Measured.{core_measures};
ghost use Rattle.vg_packed_typed.specs.Suits.{HaveFewParameters, Suits};

/// The procedure of a method is typed, where its columns and tables stand as the packed program says, no method has more than 60 parameters and this one no
/// more than 60 parameters and locals, its steps are typed and allowed, and its values wait in order, however many they are. As many wait in the procedure. The
/// body is empty: its contract is a law of the definitions.
pub fn typed_packed()
    ensures { (p : Tables) (l : Layout) (k : Codes) (f : FirmProgram) (lay : Placed) (calls : List ℕ) (m : ℕ) (g : Signature) (b : Body)
        → Suits p l k lay → HaveFewParameters p → Fits (allowing p l f calls (locals_of g b) g.owner g.result) false b.code [] []
        → length (locals_of g b) ≤ 60 → (most : ℕ) → Counted core_measures most false 0 b.code 0 0
        → (t : IsTypedFor lay (packed p l k m g b)) × (t.most ≡ most) }
{}
