// What the calls of a text cost.
ghost use Rattle.std.specs.Prelude.{◌≡◌, ◌≤◌, ℕ, Bool, true, List};
ghost use Rattle.vg_syntax.specs.Tree.{Node};
ghost use Rattle.vg_source.specs.Values.{Heap};
ghost use Rattle.vg_calls_source.specs.Bounds.{IsPath, IsSpent};
ghost use Rattle.vg_calls_source.specs.Graphs.{HasNoCycle, IsWayTo, sum_of};

/// The largest cost of the methods of a way is one number, and no way costs more. The body is empty: its contract is a law of the definitions.
pub fn paths_are_one()
    ensures one { (text : Node) (h : Heap) (m n : ℕ) → IsPath text h m → IsPath text h n → m ≡ n }
    ensures most { (text : Node) (h : Heap) (m n : ℕ) → IsPath text h m → IsSpent text h n → n ≤ m }
{}

/// Where each node of a graph from which an edge leads costs something, and no way costs more than so much, no cycle is reached. (`Rounds` in proofs/ says it
/// of graphs that no test decides, too; so does `Alike` of the next law.)
pub fn bounded_ways_reach_no_cycle()
    ensures { (entry : ℕ → Bool) (edge : ℕ → ℕ → Bool) (cost : ℕ → ℕ) (most : ℕ)
        → ((way : List ℕ) (end : ℕ) → IsWayTo (λ a. entry a ≡ true) (λ a b. edge a b ≡ true) end way → sum_of cost way ≤ most)
        → ((a b : ℕ) → edge a b ≡ true → 1 ≤ cost a) → HasNoCycle (λ a. entry a ≡ true) (λ a b. edge a b ≡ true) }
{}

/// Where nodes of one graph stand for those of another, entries for entries, and its edges follow those of the other, the other has a cycle only where it has.
pub fn graphs_alike_have_cycles_alike()
    ensures { (entry other_entry : ℕ → Bool) (edge other_edge : ℕ → ℕ → Bool) (stands : ℕ → ℕ → Bool)
        → ((a : ℕ) → entry a ≡ true → (b : ℕ) × (stands a b ≡ true) × (other_entry b ≡ true))
        → ((a b c : ℕ) → stands a b ≡ true → edge a c ≡ true → (d : ℕ) × (stands c d ≡ true) × (other_edge b d ≡ true))
        → ((a b c : ℕ) → stands a b ≡ true → stands a c ≡ true → b ≡ c)
        → HasNoCycle (λ a. other_entry a ≡ true) (λ a b. other_edge a b ≡ true) → HasNoCycle (λ a. entry a ≡ true) (λ a b. edge a b ≡ true) }
{}
