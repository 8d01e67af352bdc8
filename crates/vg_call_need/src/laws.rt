// The law of needs.
ghost use Rattle.std.specs.Prelude.{ℕ, ◌≤◌, List};
ghost use Rattle.vg_core.specs.declared.heap.Heap.{Heap};
ghost use Rattle.vg_core.specs.Program.{Program};
ghost use Rattle.vg_layout.specs.declared.stack_bound.StackBound.{StackBound};
ghost use Rattle.vg_layout.specs.declared.stack_bound.StackBound.TheVariants as bounds;
ghost use Rattle.vg_live.specs.declared.live_set.LiveSet.{LiveSet};
ghost use Rattle.vg_number.specs.declared.numbers.Numbers.{Numbers};
ghost use Rattle.vg_place.specs.declared.placing.Columns.{Columns};
ghost use Rattle.vg_packed.specs.declared.program.FirmProgram.{FirmProgram};
ghost use Rattle.vg_packed.specs.Given.{IsGiven};
ghost use Rattle.vg_packed.specs.Packed.{IsPackedFrom};
ghost use Rattle.vg_packed.specs.Ready.{IsReady};
ghost use Rattle.vg_call_need.specs.Bounds.{BoundsCalls, IsBoundOf};
ghost use Rattle.vg_call_need.specs.declared.need.Need.{Need};
ghost use Rattle.vg_call_need.specs.declared.need.Need.TheVariants as needs;
ghost use Rattle.vg_call_need.specs.Within.{IsNeedWithin};

/// A law of packed programs. What the calls of a packed program need by frames of methods, for which there is room within their costs, bounds the calls of its
/// typed program by these costs; and so do fewer bytes, at least four, where it is a number of bytes. The body is empty: its contract is a law of the
/// definitions.
pub fn needs_bound_calls()
    ensures bound { (p : Program) (h : Heap) (s : LiveSet) (n : Numbers) (c : Columns) (f : FirmProgram) → IsGiven p h s n c → IsReady p h
        → IsPackedFrom p h s n c f → (extra : ℕ) (frames costs : List ℕ) (need : Need) (bound : StackBound) → IsNeedWithin extra f frames costs need
        → IsBoundOf f need bound → BoundsCalls costs p h bound }
    ensures bytes { (p : Program) (h : Heap) (s : LiveSet) (n : Numbers) (c : Columns) (f : FirmProgram) → IsGiven p h s n c → IsReady p h
        → IsPackedFrom p h s n c f → (extra : ℕ) (frames costs : List ℕ) (need total : ℕ) → 4 ≤ need → need ≤ total
        → IsNeedWithin extra f frames costs (needs.Bytes total) → BoundsCalls costs p h (bounds.Bytes need) }
{}
