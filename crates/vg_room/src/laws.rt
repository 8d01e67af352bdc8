// The room of initialisation.
ghost use Rattle.std.specs.Prelude.{◌≡◌, ◌≤◌, ℕ};
ghost use Rattle.vg_core.specs.declared.heap.Heap.{Heap};
ghost use Rattle.vg_core.specs.Heap.{stored_values};
ghost use Rattle.vg_core.specs.Program.{Program};
ghost use Rattle.vg_core.specs.Session.{Started, started};

/// The heap to which a program is initialised has at most 60,000 stored values. The body is empty: its contract is a law of the definitions.
pub fn started_heaps_fit()
    ensures { (p : Program) (clock : ℕ) (h : Heap) → started p clock ≡ Started h → stored_values h ≤ 60000 }
{}
