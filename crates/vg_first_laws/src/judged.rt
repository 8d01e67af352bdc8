// The law of the texts of programs of constants: by the rules and by the meaning of the language.
ghost use Rattle.std.specs.Prelude.{◌≡◌, ℕ, suc, List, None};
ghost use Rattle.vg_syntax.specs.Tree.{Node};
ghost use Rattle.vg_syntax.specs.Reads.{Reads};
ghost use Rattle.vg_source.specs.Program.{source_of};
ghost use Rattle.vg_source.specs.Session.{Started, started};
ghost use Rattle.vg_source.specs.Peak.{sessions};
ghost use Rattle.vg_rules.specs.Refusal.{refusal_of};
ghost use Rattle.vg_first_text.specs.declared.device_write.DeviceWrite.{DeviceWrite};
ghost use Rattle.vg_first_text.specs.FirstSession.{first_session};
ghost use Rattle.vg_first_text.specs.FirstText.{IsFirst};
ghost use Rattle.vg_first_laws.specs.Trees.{empty_heap};

/// The tree of the bytes of a program of constants keeps all rules and has too many of nothing; it is initialised in one tick to the empty heap,
/// and its sessions show what `first_session` says of its writes. The body is empty: its contract is a law of the definitions.
pub fn constants_are_legal()
    ensures legal { (bytes : List ℕ) (writes : List DeviceWrite) (tree : Node) → IsFirst bytes writes → Reads bytes tree → refusal_of tree ≡ None }
    ensures started { (bytes : List ℕ) (writes : List DeviceWrite) (tree : Node) → IsFirst bytes writes → Reads bytes tree
        → (clock : ℕ) → started (source_of tree) (suc clock) ≡ Started empty_heap }
    ensures session { (bytes : List ℕ) (writes : List DeviceWrite) (tree : Node) → IsFirst bytes writes → Reads bytes tree
        → (reads interrupts : List ℕ) (clock : ℕ) → sessions tree empty_heap reads interrupts clock ≡ first_session writes reads interrupts clock }
{}
