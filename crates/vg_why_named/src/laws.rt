// Chains of reasons, and the members that are asked for, under numbers and under names.
ghost use Rattle.std.specs.Prelude.{◌≡◌, ◌<◌, ℕ, length, List, Some, slice_get};
ghost use Rattle.vg_source.specs.Names.{Name};
ghost use Rattle.vg_core.specs.declared.heap.Heap.{Heap};
ghost use Rattle.vg_core.specs.declared.member.Member.{Member};
ghost use Rattle.vg_core.specs.declared.member.Member.TheVariants.{Method, Field};
ghost use Rattle.vg_core.specs.Naming.{Naming, naming_of, named, named_heap};
ghost use Rattle.vg_core.specs.Program.{Program};
ghost use Rattle.vg_core.specs.Typing.{WellTyped};
ghost use Rattle.vg_sound.specs.Good.{HasTypedHeap};
ghost use Rattle.vg_renamed.specs.NamesTell.{NamesTell};
ghost use Rattle.vg_live.specs.declared.live_set.LiveSet.{LiveSet};
ghost use Rattle.vg_live.specs.Rules.{IsThere};
ghost use Rattle.vg_live.specs.Sets.{IsLiveSet};
ghost use Rattle.vg_live_source.specs.Asking.{member_of};
ghost use Rattle.vg_live_source.specs.Chains as source;
ghost use Rattle.vg_live_source.specs.Members as source_members;
ghost use Rattle.vg_live_named.specs.Members.{named_member};
ghost use Rattle.vg_report.specs.Chains.{IsWhy};
ghost use Rattle.vg_why_named.specs.Owners.{IsDeclared};

/// The chain of the kept reasons of a member is a chain of the program with names, in the same lines, and the line of a dead member is
/// that of a dead one.
pub fn why_carries_over()
    ensures { (texts : List Name) (p : Program) → NamesTell (naming_of texts p.tables) p → WellTyped p → (h : Heap) → HasTypedHeap p.tables h
        → (s : LiveSet) → IsLiveSet p h s → (y : Member) → IsThere p h y → (lines : List ℕ) → IsWhy texts p.tables s y lines
        → source.IsWhy (named (naming_of texts p.tables) p) (named_heap (naming_of texts p.tables) p.tables h)
        (named_member (naming_of texts p.tables) y) lines }
{}

/// The program with names declares each method of the typed program.
pub fn method_declared()
    ensures { (n : Naming) (p : Program) → NamesTell n p → WellTyped p → (m : ℕ) → m < length p.tables.methods
        → member_of (named n p) (n.method m).owner (n.method m).name ≡ Some (named_member n (Method m)) }
{}

/// It declares each field of the typed program whose names are those of no method.
pub fn field_declared()
    ensures { (texts : List Name) (p : Program) → NamesTell (naming_of texts p.tables) p → WellTyped p → (f : ℕ) → IsDeclared p.tables (Field f)
        → ((m : ℕ) → m < length p.tables.methods → ((naming_of texts p.tables).method m).owner ≡ ((naming_of texts p.tables).field f).owner
        → ((naming_of texts p.tables).method m).name ≡ ((naming_of texts p.tables).field f).name → ⊥)
        → member_of (named (naming_of texts p.tables) p) ((naming_of texts p.tables).field f).owner ((naming_of texts p.tables).field f).name
        ≡ Some (named_member (naming_of texts p.tables) (Field f)) }
{}

/// It declares nothing else.
pub fn declared_members()
    ensures { (n : Naming) (p : Program) → NamesTell n p → WellTyped p → (c x : Name) (z : source_members.Member) → member_of (named n p) c x ≡ Some z
        → (y : Member) × (z ≡ named_member n y) × IsDeclared p.tables y }
{}
