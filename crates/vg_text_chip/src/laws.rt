// The law of registers and interrupts.
ghost use Rattle.std.specs.Prelude.{◌≡◌, ℕ, List, Some};
ghost use Rattle.vg_syntax.specs.Reads.{Reads};
ghost use Rattle.vg_syntax.specs.Tree.{Node};
ghost use Rattle.vg_source.specs.Program.{source_of};
ghost use Rattle.vg_rules.specs.Legal.{Legal};
ghost use Rattle.vg_core.specs.declared.program.Target.{Target};
ghost use Rattle.vg_core.specs.Naming.{Naming};
ghost use Rattle.vg_core.specs.Naming as naming;
ghost use Rattle.vg_core.specs.Program.{Body, Program, Signature, signature_of, body_of};
ghost use Rattle.vg_renamed.specs.NamesTell.{NamesTell};
ghost use Rattle.vg_text_chip.specs.Chip.{NamesChip};

/// The typed program of a legal text reads and writes registers of devices alone, and its handlers are those of interrupts, where each of its bodies is that of
/// something which can be called. The body is empty: its contract is a law of the definitions.
pub fn legal_texts_name_the_chip()
    ensures { (bytes : List ℕ) (tree : Node) (n : Naming) (p : Program) → Reads bytes tree → Legal tree → source_of tree ≡ naming.named n p
        → NamesTell n p → ((t : Target) (b : Body) → body_of p t ≡ Some b → (g : Signature) × (signature_of p.tables t ≡ Some g)) → NamesChip p }
{}
