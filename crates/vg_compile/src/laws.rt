// The laws of compiled programs.
ghost use Rattle.std.specs.Prelude.{ℕ, ◌≡◌, ◌+◌, ◌≤◌, true, List};
ghost use Rattle.avr_view.specs.Run.{Run};
ghost use Rattle.vg_core.specs.declared.heap.Heap.{Heap};
ghost use Rattle.vg_core.specs.Program.{Program};
ghost use Rattle.vg_live.specs.declared.live_set.LiveSet.{LiveSet};
ghost use Rattle.vg_number.specs.declared.numbers.Numbers.{Numbers};
ghost use Rattle.vg_place.specs.declared.placing.Columns.{Columns};
ghost use Rattle.vg_packed.specs.declared.program.FirmProgram.{FirmProgram};
ghost use Rattle.vg_packed.specs.Given.{IsGiven};
ghost use Rattle.vg_packed.specs.Ready.{IsReady};
ghost use Rattle.vg_compile.specs.Packed.{IsPackedRows};
ghost use Rattle.vg_linear.specs.declared.whole.Linear.{Linear};
ghost use Rattle.vg_linear.specs.Whole.{IsLinear};
ghost use Rattle.vg_link.specs.declared.linked.Linked.{Linked};
ghost use Rattle.vg_link.specs.declared.unlinked.Unlinked.{Unlinked};
ghost use Rattle.vg_link.specs.Linking.{CanBeLinked, IsLinked};
ghost use Rattle.vg_frame_costs.specs.Fitting.{FramesFit};
ghost use Rattle.vg_stack_bound.specs.Memory.{DoesAsProgram};
ghost use Rattle.vg_compile.specs.Unlinked.{IsUnlinked};
ghost use Rattle.vg_compile.specs.Given.{NamesChip};
ghost use Rattle.vg_compile.specs.Handlers.{HandlersReceiveNothing};

/// A law of compiled programs. Where a typed program and its initialised heap are packed, the packed program is made linear, and that is linked, the machine
/// does in the image what the program does from its heap: in every run of it from reset on, whatever registers and SRAM hold at power-on, the reads and the
/// interrupts, it ends for the same reason with the same outside, or has shown the same and goes on where only ticks were spent; or its stack reaches below
/// the floor, which it does only where the calls that were active cost more than the stack, by costs of methods and bytes beside them by which frames
/// fit. Interrupts are let in at the idle SLEEP and at the CLI behind it. The body is empty: its contract is a law of the definitions.
pub fn compiled_programs_follow()
    ensures { (p : Program) (h : Heap) (s : LiveSet) (n : Numbers) (c : Columns) (f : FirmProgram) (l : Linear) (u : Unlinked) (linked : Linked)
        → IsGiven p h s n c → IsReady p h → IsPackedRows p h s n c f → IsLinear c.list f l → IsUnlinked c f l u → CanBeLinked u → IsLinked u linked
        → (extra : ℕ) (costs : List ℕ) → FramesFit l.procedures l.start extra costs → (e : Run) → e.flash ≡ linked.flash → e.static ≡ c.static_bytes
        → e.floor ≤ 0x1100
        → e.lets_in (linked.idle + 1) ≡ true → e.lets_in (linked.idle + 2) ≡ true → DoesAsProgram e extra costs p h }
{}

/// A law of packed programs. The linear program of what was packed of a ready program can be linked with its tables, where the program names registers and
/// interrupts of the chip alone and the handlers of the linear one receive nothing. The body is empty: its contract is a law of the definitions.
pub fn packed_programs_can_be_linked()
    ensures { (p : Program) (h : Heap) (s : LiveSet) (n : Numbers) (c : Columns) (f : FirmProgram) (l : Linear) (u : Unlinked)
        → IsGiven p h s n c → IsReady p h → NamesChip p → IsPackedRows p h s n c f → HandlersReceiveNothing u → IsLinear c.list f l
        → IsUnlinked c f l u → CanBeLinked u }
{}
