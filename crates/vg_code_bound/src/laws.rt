// The law of live nodes.
ghost use Rattle.std.specs.Prelude.{◌≡◌, ◌+◌, ◌*◌, ◌≤◌, ℕ, slice_get, Some};
ghost use Rattle.vg_syntax.specs.Tree.{Node};
ghost use Rattle.vg_source.specs.Values.{Heap};
ghost use Rattle.vg_source.specs.Program.{source_of};
ghost use Rattle.vg_method_sizes.specs.Sizes.{Size, sizes};
ghost use Rattle.vg_live_source.specs.Rules.{Live};
ghost use Rattle.vg_calls_source.specs.Methods.{DeclaredMethod, methods_of};
ghost use Rattle.vg_code_bound.specs.Nodes.{IsCodeBound, member_of};

/// A law of the bound on code: a live method whose body has so many nodes brings 64 words for each of them and 4,000 more. The body is empty: its contract is a
/// law of the definitions.
pub fn live_bodies_count()
    ensures { (text : Node) (h : Heap) (words number : ℕ) (d : DeclaredMethod) (s : Size) → IsCodeBound text h words
        → slice_get (methods_of text) number ≡ Some d → slice_get (sizes text) number ≡ Some s → Live (source_of text) h (Some (member_of d.method))
        → 4000 + 64 * s.nodes ≤ words }
{}
