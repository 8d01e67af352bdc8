// The law of the ranges of a text.
ghost use Rattle.std.specs.Prelude.{◌≡◌, ◌<◌, ◌^◌, ℕ, true};
ghost use Rattle.vg_syntax.specs.Tree.{Node, Spot, Text};
ghost use Rattle.vg_source.specs.Program.{source_of};
ghost use Rattle.vg_rules.specs.Legal.{Legal};
ghost use Rattle.vg_source_ranges.specs.Spelled.{AreSpelled};
ghost use Rattle.vg_core.specs.Naming.{Naming};
ghost use Rattle.vg_core.specs.Naming as naming;
ghost use Rattle.vg_core.specs.Program.{Program};
ghost use Rattle.vg_renamed.specs.NamesTell.{NamesTell};
ghost use Rattle.vg_types_declared.specs.Apart.{have_members};
ghost use Rattle.vg_packed.specs.Ranges.{HaveRanges};
ghost use Rattle.vg_text_ranges.specs.Beside.{IsSafeBeside};

/// The typed program of a legal text has its constants, casts, literals, locals and results in their ranges, and its methods run no construction of a
/// class above, where its names tell its numbers apart, members alone stand in its classes and components, the text is spelled as the grammar spells
/// it, with strings of less than 2^31 bytes, and what stands beside is known. The body is empty: its contract is a law of the definitions.
pub fn text_programs_have_ranges()
    ensures { (n : Naming) (p : Program) (at : Spot) (ds : Node) (most : ℕ) → source_of (Text at ds) ≡ naming.named n p → NamesTell n p
        → Legal (Text at ds) → have_members ds ≡ true → AreSpelled most ds → most < 2 ^ 31 → IsSafeBeside p → HaveRanges p }
{}
