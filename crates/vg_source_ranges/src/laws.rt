// The law of legal bodies.
ghost use Rattle.std.specs.Prelude.{◌≡◌, ℕ, None, Some, slice_get};
ghost use Rattle.vg_syntax.specs.Tree.{Node, Spot, Text};
ghost use Rattle.vg_source.specs.Program.{source_of};
ghost use Rattle.vg_source.specs.Resolved.{Fresh, Scope, resolved};
ghost use Rattle.vg_source.specs.Steps.{Routine};
ghost use Rattle.vg_rules.specs.Bodies.{Body, breach};
ghost use Rattle.vg_rules.specs.Legal.{Legal};
ghost use Rattle.vg_source_ranges.specs.Ranges.{AreRanged, AreSmall};
ghost use Rattle.vg_source_ranges.specs.Spelled.{AreSpelled};
ghost use Rattle.vg_source_ranges.specs.Routines.{HaveMembers, IsRangedRoutine, MayRunAbove};

/// Code that breaks no rule and is spelled as the grammar spells it has its ints, chars and bit strings in their ranges, casts to bit strings of at
/// most 32 bits, makes arrays of no others whose elements have bits, and runs no construction of a class above; its locals are no longer bit
/// strings, where the parameters are none. The body is empty: its contract is a law of
/// the definitions, as that below.
pub fn legal_bodies_are_ranged()
    ensures code { (most : ℕ) (ds : Node) (k : Body) (a : Node) (ls : Scope) → breach ds k a Fresh ls ≡ None → AreSmall ls.declared → AreSpelled most a
        → AreRanged ⊥ (resolved ds k.owner a Fresh ls).does }
    ensures locals { (most : ℕ) (ds : Node) (k : Body) (a : Node) (ls : Scope) → breach ds k a Fresh ls ≡ None → AreSmall ls.declared → AreSpelled most a
        → AreSmall (resolved ds k.owner a Fresh ls).scope.declared }
{}

/// So it is for all that runs in a legal text whose classes and components have members alone: methods, constructions and initialisations, of which
/// only constructions run one of a class above. The defaults of their locals and of their results are constants in their ranges.
pub fn legal_routines_are_ranged()
    ensures { (most : ℕ) (at : Spot) (ds : Node) → Legal (Text at ds) → HaveMembers ds → AreSpelled most ds → (i : ℕ) (r : Routine)
        → slice_get (source_of (Text at ds)).routines i ≡ Some r → IsRangedRoutine (MayRunAbove r.target) r }
{}
