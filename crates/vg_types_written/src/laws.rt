// What the tables keep of a text.
ghost use Rattle.std.specs.Prelude.{◌≡◌, ℕ, List};
ghost use Rattle.vg_syntax.specs.Tree.{Node};
ghost use Rattle.vg_source.specs.Program.{declarations_of};
ghost use Rattle.vg_types_tables.specs.declared.declared.Declared.{Declared};
ghost use Rattle.vg_types_declared.specs.Named.{Keeps};
ghost use Rattle.vg_types_named.specs.Left.{Left};
ghost use Rattle.vg_written.specs.Written.{AreWritten};

/// The tables that the passes over the declarations of a text left keep what the text declares. The body is empty: its contract is a law of the definitions.
pub fn fields_are_written()
    ensures { (texts : List (List ℕ)) (ds : Node) (d : Declared) → Keeps ds → Left texts ds d → (text : Node) → declarations_of text ≡ ds
        → AreWritten texts text d.tables }
{}
