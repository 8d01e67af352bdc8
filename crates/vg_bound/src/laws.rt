// The walk along a kept cycle.
ghost use Rattle.std.specs.Prelude.{◌≡◌, ℕ, List, Some, length, slice_get};
ghost use Rattle.vg_bound.specs.Graph.{IsNext, IsOnce, round};

/// What stands behind a node of a kept cycle is what stands behind its one place: so `follow` from the first node passes each node in the
/// order in which they are kept, and comes back to the first behind the last. The body is empty: its contract is a law of the definitions.
pub fn following_goes_round()
    ensures { (kept : List ℕ) → IsOnce kept → (i a b : ℕ) → slice_get kept i ≡ Some a → IsNext kept a b
        → slice_get kept (round i 0 (length kept)) ≡ Some b }
{}
