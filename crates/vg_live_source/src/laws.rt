// The live set is the least, and a chain is one of a live member.
ghost use Rattle.std.specs.Prelude.{◌≡◌, Bool, List, Option, Some, true, ℕ};
ghost use Rattle.vg_source.specs.Steps.{Source};
ghost use Rattle.vg_source.specs.Values.{Heap};
ghost use Rattle.vg_live_source.specs.Chains.{Chain};
ghost use Rattle.vg_live_source.specs.Members.{Member};
ghost use Rattle.vg_live_source.specs.Rules.{Closed, InSet, Live};

/// What is live is in each set of members that the rules close. (`Least` in specs/ says it of sets that no test decides, too.)
pub fn live_is_least()
    ensures { (p : Source) (h : Heap) (S : Member → Bool) → Closed p h (λ y. S y ≡ true) → (y : Option Member) → Live p h y
        → InSet (λ y. S y ≡ true) y }
{}

/// What has a chain is live, and so is each member with a line in it.
pub fn chains_are_live()
    ensures { (p : Source) (h : Heap) (y : Member) (members : List Member) (lines : List ℕ) → Chain p h y members lines → Live p h (Some y) }
{}
