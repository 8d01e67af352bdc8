// Programs that are put together of tables and bodies.
ghost use Rattle.std.specs.Prelude.{◌≡◌, ℕ, true, List, None, map};
ghost use Rattle.vg_tree.specs.declared.node.Node as held_node;
ghost use Rattle.vg_core.specs.declared.program.Body.{Body};
ghost use Rattle.vg_core.specs.Program.{Program};
ghost use Rattle.vg_core.specs.Naming.{named, named_target, named_handler};
ghost use Rattle.vg_core.specs.declared.program.Target.TheVariants.{Run};
ghost use Rattle.vg_source.specs.Program.{program_of, entries_in, main_of, handlers_in};
ghost use Rattle.vg_rules.specs.Signatures.{signatures_breach};
ghost use Rattle.vg_renamed.specs.NamesTell.{NamesTell};
ghost use Rattle.vg_types_tables.specs.declared.declared.Declared.{Declared};
ghost use Rattle.vg_types_tables.specs.Views.{declarations_at, naming};
ghost use Rattle.vg_types_tables.specs.Declares.{Declares};
ghost use Rattle.vg_types_declared.specs.Named.{Keeps};
ghost use Rattle.vg_types_named.specs.Left.{Left};
ghost use Rattle.vg_types_declared.specs.Apart.{have_members};
ghost use Rattle.vg_types_named.specs.Routines.{AllRun};
ghost use Rattle.vg_types_routines.specs.Bodies.{AllBodies};
ghost use Rattle.vg_types.specs.Assembled.{IsOf, AreTyped};

/// A program of the tables of a text and of the bodies of all that it declares runs what the text says, and its bodies are typed.
pub fn bodies_assembled()
    ensures run { (texts : List (List ℕ)) (root : held_node.Node) (d : Declared) (ms ks ss : List Body) (p : Program)
        → Keeps (declarations_at texts root) → Declares texts root d → Left texts (declarations_at texts root) d
        → AllBodies texts root d (declarations_at texts root) ms ks ss → IsOf d ms ks ss p
        → AllRun (naming texts d) p (declarations_at texts root) 0 0 0 (declarations_at texts root) }
    ensures typed { (texts : List (List ℕ)) (root : held_node.Node) (d : Declared) (ms ks ss : List Body) (p : Program)
        → Keeps (declarations_at texts root) → Declares texts root d → Left texts (declarations_at texts root) d
        → AllBodies texts root d (declarations_at texts root) ms ks ss → IsOf d ms ks ss p → AreTyped p }
{}

/// With the entries of a text such a program is that of the text, with names in place of numbers; and where rule 6 is kept its names tell its numbers
/// apart.
pub fn program_assembled()
    ensures named { (texts : List (List ℕ)) (root : held_node.Node) (d : Declared) (ms ks ss : List Body) (p : Program)
        → Keeps (declarations_at texts root) → Declares texts root d → Left texts (declarations_at texts root) d
        → AllBodies texts root d (declarations_at texts root) ms ks ss → IsOf d ms ks ss p
        → named_target (naming texts d) p.tables (Run p.main) ≡ main_of (entries_in (declarations_at texts root))
        → map (named_handler (naming texts d) p.tables) p.handlers ≡ handlers_in (entries_in (declarations_at texts root))
        → program_of (declarations_at texts root) ≡ named (naming texts d) p }
    ensures told { (texts : List (List ℕ)) (root : held_node.Node) (d : Declared) (ms ks ss : List Body) (p : Program)
        → Keeps (declarations_at texts root) → Declares texts root d → Left texts (declarations_at texts root) d
        → AllBodies texts root d (declarations_at texts root) ms ks ss → IsOf d ms ks ss p
        → signatures_breach (declarations_at texts root) (declarations_at texts root) ≡ None → have_members (declarations_at texts root) ≡ true
        → NamesTell (naming texts d) p }
{}
