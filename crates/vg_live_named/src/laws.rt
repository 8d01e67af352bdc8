// What is live under numbers and under names.
ghost use Rattle.std.specs.Prelude.{◌≡◌, ◌↔◌, ℕ, Option, Some};
ghost use Rattle.vg_core.specs.declared.heap.Heap.{Heap};
ghost use Rattle.vg_core.specs.declared.member.Member.{Member};
ghost use Rattle.vg_core.specs.Naming.{Naming, named, named_heap};
ghost use Rattle.vg_core.specs.Program.{Program};
ghost use Rattle.vg_core.specs.Typing.{WellTyped};
ghost use Rattle.vg_sound.specs.Good.{HasTypedHeap};
ghost use Rattle.vg_renamed.specs.NamesTell.{NamesTell};
ghost use Rattle.vg_live.specs.Rules.{IsThere, Live, Rule};
ghost use Rattle.vg_live_source.specs.Members as source;
ghost use Rattle.vg_live_source.specs.Rules as source_rules;
ghost use Rattle.vg_live_named.specs.Members.{named_member, named_one};

/// In a well typed program each rule with live premises concludes a member that is there.
pub fn members_are_there()
    ensures { (p : Program) (h : Heap) → WellTyped p → HasTypedHeap p.tables h → (y : Member) (k : ℕ) (from also : Option Member)
        → Rule p h y k from also → Live p h from → Live p h also → IsThere p h y }
{}

/// A reason under numbers is one under names, by the same rule.
pub fn reasons_carry_over()
    ensures { (n : Naming) (p : Program) → NamesTell n p → WellTyped p → (h : Heap) → HasTypedHeap p.tables h
        → (y : Member) (k : ℕ) (from also : Option Member) → Rule p h y k from also → Live p h from
        → source_rules.Rule (named n p) (named_heap n p.tables h) (named_member n y) k (named_one n from) (named_one n also) }
{}

/// What is live under numbers is live under names.
pub fn live_under_names()
    ensures { (n : Naming) (p : Program) → NamesTell n p → WellTyped p → (h : Heap) → HasTypedHeap p.tables h
        → (y : Member) → Live p h (Some y) → source_rules.Live (named n p) (named_heap n p.tables h) (Some (named_member n y)) }
{}

/// What is live under names is a member of the typed program under its names, and is live under numbers.
pub fn live_under_numbers()
    ensures { (n : Naming) (p : Program) → NamesTell n p → WellTyped p → (h : Heap) → HasTypedHeap p.tables h
        → (z : source.Member) → source_rules.Live (named n p) (named_heap n p.tables h) (Some z)
        → (y : Member) × (z ≡ named_member n y) × Live p h (Some y) }
{}

/// A member that is there is live under its number exactly where it is live under its names.
pub fn live_alike()
    ensures { (n : Naming) (p : Program) → NamesTell n p → WellTyped p → (h : Heap) → HasTypedHeap p.tables h
        → (y : Member) → IsThere p h y → source_rules.Live (named n p) (named_heap n p.tables h) (Some (named_member n y)) ↔ Live p h (Some y) }
{}

/// Different members that are there have different names.
pub fn names_tell_members()
    ensures { (n : Naming) (p : Program) → NamesTell n p → (h : Heap) → (x y : Member) → IsThere p h x → IsThere p h y
        → named_member n x ≡ named_member n y → x ≡ y }
{}
