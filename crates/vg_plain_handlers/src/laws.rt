// The law of the handlers of plain programs.
ghost use Rattle.std.specs.Prelude.{◌≡◌, ℕ, Some};
ghost use Rattle.vg_core.specs.declared.heap.Heap.{Heap};
ghost use Rattle.vg_core.specs.Program.{Program};
ghost use Rattle.vg_live.specs.declared.live_set.LiveSet.{LiveSet};
ghost use Rattle.vg_number.specs.declared.numbers.Numbers.{Numbers};
ghost use Rattle.vg_place.specs.declared.placing.Columns.{Columns};
ghost use Rattle.vg_packed.specs.declared.program.FirmProgram.{FirmProgram};
ghost use Rattle.vg_packed.specs.Given.{IsGiven};
ghost use Rattle.vg_packed.specs.Packed.{IsPackedFrom};
ghost use Rattle.vg_packed.specs.Programs.{handler_in};
ghost use Rattle.vg_packed.specs.Ready.{IsReady};
ghost use Rattle.vg_linear.specs.declared.whole.Linear.{Linear};
ghost use Rattle.vg_linear.specs.Whole.{IsPlain};
ghost use Rattle.vg_link.specs.Linking.{CanHandle};

/// A law of plain linear programs. The procedure of each interrupt receives nothing. The body is empty: its contract is a law of the definitions.
pub fn plain_handlers_receive_nothing()
    ensures { (p : Program) (h : Heap) (s : LiveSet) (n : Numbers) (c : Columns) (f : FirmProgram) → IsGiven p h s n c → IsReady p h
        → IsPackedFrom p h s n c f → (l : Linear) → IsPlain c.list f l → (vector q : ℕ) → handler_in f.handlers vector ≡ Some q
        → CanHandle l.procedures q }
{}
