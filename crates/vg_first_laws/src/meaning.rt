// The law of programs of constants.
ghost use Rattle.std.specs.Prelude.{◌≡◌, ℕ, suc, List};
ghost use Rattle.vg_first_text.specs.FirstSession.{first_session};
ghost use Rattle.vg_first_text.specs.FirstText.{First, FirstFits, writes_of};
ghost use Rattle.vg_syntax.specs.Tree.{Spot};
ghost use Rattle.vg_source.specs.Program.{source_of};
ghost use Rattle.vg_source.specs.Session.{Started, started};
ghost use Rattle.vg_source.specs.Peak.{sessions};
ghost use Rattle.vg_first_laws.specs.Trees.{first_tree, empty_heap};

/// The tree of a program of constants, wherever its nodes stand, is initialised in one tick to the empty heap, and its
/// sessions show what `first_session` says of its writes: trace, ending and peak. The body is empty: its contract is a law
/// of the definitions.
pub fn constants_mean()
    ensures started { (at : ℕ → Spot) (device program : ℕ) (f : First) → FirstFits f → (clock : ℕ)
        → started (source_of (first_tree at device program f)) (suc clock) ≡ Started empty_heap }
    ensures session { (at : ℕ → Spot) (device program : ℕ) (f : First) → FirstFits f → (reads interrupts : List ℕ) (clock : ℕ)
        → sessions (first_tree at device program f) empty_heap reads interrupts clock ≡ first_session (writes_of f) reads interrupts clock }
{}
