// The laws of ranges.
ghost use Rattle.std.specs.Prelude.{◌≡◌, ℕ, None, Some};
ghost use Rattle.vg_core.specs.declared.heap.Heap.{Heap};
ghost use Rattle.vg_core.specs.declared.member.Member.TheVariants.{Method};
ghost use Rattle.vg_core.specs.Program.{Program};
ghost use Rattle.vg_core.specs.Session.{Started, started};
ghost use Rattle.vg_core.specs.Typing.{WellFormed};
ghost use Rattle.vg_live.specs.Rules.{Live};
ghost use Rattle.vg_number.specs.Numbering.{kinds_of};
ghost use Rattle.vg_packed.specs.Plain.{AreRanged, IsPlain};
ghost use Rattle.vg_reach.specs.Reaches.{made_in};
ghost use Rattle.vg_packed.specs.Given.{HaveWidth};
ghost use Rattle.vg_packed.specs.Ready.{IsReady};
ghost use Rattle.vg_packed.specs.Ranges.{HaveRanges};

/// Where the ranges of a program are kept, the scalars in the heap to which it is initialised are in their ranges, and the elements of its
/// arrays have bytes. The body is empty: its contract is a law of the definitions, as that below.
pub fn started_heaps_are_ranged()
    ensures scalars { (p : Program) → WellFormed p.tables → HaveRanges p → (clock : ℕ) (h : Heap) → started p clock ≡ Started h
        → AreRanged p.tables h }
    ensures elements { (p : Program) → WellFormed p.tables → HaveRanges p → (clock : ℕ) (h : Heap) → started p clock ≡ Started h
        → HaveWidth p.tables (kinds_of h) }
{}

/// Such a program is plain, and with the heap to which it is initialised it is ready to be packed, where no live method makes anything.
pub fn ranged_programs_are_ready()
    ensures plain { (p : Program) → HaveRanges p → IsPlain p }
    ensures ready { (p : Program) → WellFormed p.tables → HaveRanges p → (clock : ℕ) (h : Heap) → started p clock ≡ Started h
        → ((m : ℕ) → Live p h (Some (Method m)) → made_in p m ≡ None) → IsReady p h }
{}
