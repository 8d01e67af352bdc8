// The laws of typed programs of texts.
ghost use Rattle.std.specs.Prelude.{◌≡◌, ◌<◌, ◌≤◌, ◌^◌, ℕ, List, None, length};
ghost use Rattle.vg_syntax.specs.Tree.{Node};
ghost use Rattle.vg_syntax.specs.Reads.{Reads};
ghost use Rattle.vg_source.specs.Names.{Name};
ghost use Rattle.vg_rules.specs.Refusal.{refusal_of};
ghost use Rattle.vg_core.specs.Program.{Program};
ghost use Rattle.vg_pack_bodies.specs.Procedures.{HaveFewParameters};
ghost use Rattle.vg_packed.specs.Few.{HaveFewArguments};
ghost use Rattle.vg_types_named.specs.Programs.{IsProgramOf};
ghost use Rattle.vg_packed.specs.Ranges.{HaveRanges};

/// The typed program of a text of less than 2^31 bytes that is refused for nothing has all in the ranges that packing needs. The body is empty: its
/// contract is a law of the definitions, as that below.
pub fn programs_of_texts_have_ranges()
    ensures { (bytes : List ℕ) (texts : List Name) (tree : Node) (p : Program) → IsProgramOf texts tree p → Reads bytes tree → refusal_of tree ≡ None
        → length bytes < 2 ^ 31 → HaveRanges p }
{}

/// It has at most 2000 methods, each with at most 60 parameters, and its calls of methods have at most 255 arguments.
pub fn programs_of_texts_are_small()
    ensures methods { (texts : List Name) (tree : Node) (p : Program) → IsProgramOf texts tree p → refusal_of tree ≡ None
        → length p.tables.methods ≤ 2000 }
    ensures parameters { (texts : List Name) (tree : Node) (p : Program) → IsProgramOf texts tree p → refusal_of tree ≡ None
        → HaveFewParameters p.tables.methods }
    ensures arguments { (texts : List Name) (tree : Node) (p : Program) → IsProgramOf texts tree p → refusal_of tree ≡ None → HaveFewArguments p }
{}
