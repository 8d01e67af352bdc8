// The calls of packed code.
ghost use Rattle.std.specs.Prelude.{◌≡◌, ℕ};
ghost use Rattle.vg_codes.specs.Codes.{Codes};
ghost use Rattle.vg_core.specs.declared.program.Tables.{Tables};
ghost use Rattle.vg_core.specs.Program.{Body, Signature};
ghost use Rattle.vg_packing.specs.Layout.{Layout};
ghost use Rattle.vg_packing.specs.Pass.{packed};
ghost use Rattle.vg_packed_calls.specs.Calls.{calls_of, packed_calls, typed_calls};

/// The calls of a procedure are what the pass makes of the calls of its typed body: each stands there once, in their order, and there is no
/// other; but a call of a delegate with more than 60 arguments, which null alone can be called with, is none. The body is empty: its
/// contract is a law of the definitions.
pub fn packing_keeps_calls()
    ensures { (p : Tables) (l : Layout) (k : Codes) (m : ℕ) (g : Signature) (b : Body)
        → calls_of packed_calls (packed p l k m g b).body ≡ calls_of (typed_calls l) b.code }
{}
