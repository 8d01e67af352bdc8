// Where live methods make something, under numbers and under names.
ghost use Rattle.std.specs.Prelude.{◌≡◌, ℕ, None, Some};
ghost use Rattle.vg_core.specs.declared.heap.Heap.{Heap};
ghost use Rattle.vg_core.specs.declared.member.Member.TheVariants.{Method};
ghost use Rattle.vg_core.specs.Naming.{Naming, named, named_heap};
ghost use Rattle.vg_core.specs.Program.{Program};
ghost use Rattle.vg_core.specs.Typing.{WellTyped};
ghost use Rattle.vg_sound.specs.Good.{HasTypedHeap};
ghost use Rattle.vg_renamed.specs.NamesTell.{NamesTell};
ghost use Rattle.vg_live.specs.Rules.{Live};
ghost use Rattle.vg_live_source.specs.Making as source;
ghost use Rattle.vg_reach.specs.declared.making.Allocates.{Allocates};
ghost use Rattle.vg_reach.specs.Reaches.{IsFirstMaker, made_in};

/// The first live method of a typed program that makes something is the first one of the program with names in place of its numbers, and
/// makes it at the same node.
pub fn first_maker_carries_over()
    ensures { (n : Naming) (p : Program) → NamesTell n p → WellTyped p → (h : Heap) → HasTypedHeap p.tables h → (a : Allocates) → IsFirstMaker p h a
        → source.IsFirstMaker (named n p) (named_heap n p.tables h) (n.method a.method).owner (n.method a.method).name a.node }
{}

/// Where no live method makes anything under numbers, none does under names.
pub fn nothing_made()
    ensures { (n : Naming) (p : Program) → NamesTell n p → WellTyped p → (h : Heap) → HasTypedHeap p.tables h
        → ((m : ℕ) → Live p h (Some (Method m)) → made_in p m ≡ None) → source.MakesNothing (named n p) (named_heap n p.tables h) }
{}
