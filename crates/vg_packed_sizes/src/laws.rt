// The size of packed code.
ghost use Rattle.std.specs.Prelude.{◌≤◌, ℕ};
ghost use Rattle.vg_codes.specs.Codes.{Codes};
ghost use Rattle.vg_core.specs.declared.program.Tables.{Tables};
ghost use Rattle.vg_core.specs.Naming.{Naming, named_code};
ghost use Rattle.vg_core.specs.Program.{Body, Signature};
ghost use Rattle.vg_source_sizes.specs.Sizes.{code_size as source_size};
ghost use Rattle.vg_firm_sizes.specs.Sizes.{code_size};
ghost use Rattle.vg_packing.specs.Layout.{Layout};
ghost use Rattle.vg_packing.specs.Pass.{packed};

/// The code of a procedure is at most as large as the source code that its typed body is of, whatever the names are. The body is empty: its
/// contract is a law of the definitions.
pub fn packing_keeps_size()
    ensures { (n : Naming) (p : Tables) (l : Layout) (k : Codes) (m : ℕ) (g : Signature) (b : Body)
        → code_size (packed p l k m g b).body ≤ source_size (named_code n p b.code) }
{}
