// The weight of packed code.
ghost use Rattle.std.specs.Prelude.{◌≤◌, ℕ};
ghost use Rattle.vg_codes.specs.Codes.{Codes};
ghost use Rattle.vg_core.specs.declared.program.Tables.{Tables};
ghost use Rattle.vg_core.specs.Naming.{Naming, named_code};
ghost use Rattle.vg_core.specs.Program.{Body, Signature};
ghost use Rattle.vg_source_weights.specs.Weights.{code_weight};
ghost use Rattle.vg_flat_sizes.specs.Weights.{flat_weight};
ghost use Rattle.vg_packing.specs.Layout.{Layout};
ghost use Rattle.vg_packing.specs.Pass.{packed};

/// The code of a procedure weighs at most as much as the source code that its typed body is of, whatever the names are. The body is empty: its
/// contract is a law of the definitions.
pub fn packing_keeps_weight()
    ensures { (n : Naming) (p : Tables) (l : Layout) (k : Codes) (m : ℕ) (g : Signature) (b : Body)
        → flat_weight (packed p l k m g b).body ≤ code_weight (named_code n p b.code) }
{}
