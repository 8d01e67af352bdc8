// The live set is the least.
ghost use Rattle.std.specs.Prelude.{◌≡◌, Bool, Option, true};
ghost use Rattle.vg_core.specs.declared.heap.Heap.{Heap};
ghost use Rattle.vg_core.specs.declared.member.Member.{Member};
ghost use Rattle.vg_core.specs.Program.{Program};
ghost use Rattle.vg_live.specs.Rules.{Closed, InSet, Live};

/// What is live is in each set of members that the rules close. (`Least` in specs/ says it of sets that no test decides, too.)
pub fn live_is_least()
    ensures { (p : Program) (h : Heap) (S : Member → Bool) → Closed p h (λ y. S y ≡ true) → (y : Option Member) → Live p h y
        → InSet (λ y. S y ≡ true) y }
{}
