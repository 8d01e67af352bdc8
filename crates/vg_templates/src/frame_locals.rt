// The laws of locals at their spots.
ghost use Rattle.std.specs.Prelude.{ℕ, ◌≡◌, ◌≢◌, ◌<◌, Bool, true, List, length};
ghost use Rattle.vg_lin.specs.Steps.{Frame};
ghost use Rattle.vg_lin.specs.State.{LocalState, State, with_local};
ghost use Rattle.avr_view.specs.Registers.{Regs};
ghost use Rattle.vg_templates.specs.Spots.{Spot, Apart, frame_with, registers_with};
ghost use Rattle.vg_templates.specs.Layouts.{Layout, IsLayout, IsSpot, frame_size, width_of};
ghost use Rattle.vg_templates.specs.Frames.{Fits, Places, Points, Callers};

/// Laws of a local that gets a value at its spot, in the frame or in registers: the locals that are needed then lie at theirs, where they share no
/// byte with it; its callers do not see it, and the frame pointer stays.
pub fn locals_get()
    ensures fits { (l : Layout) (live behind : ℕ → Bool) (locals : List LocalState) (own : List ℕ) (g : Regs) (to v : ℕ) → IsLayout l
        → to < length l.widths
        → ((k : ℕ) → behind k ≡ true → k ≢ to → (live k ≡ true) × Apart (l.spots to) (width_of l to) (l.spots k) (width_of l k))
        → Fits l live locals own g
        → Fits l behind (with_local locals to v) (frame_with (l.spots to) (width_of l to) own v) (registers_with (l.spots to) (width_of l to) g v) }
    ensures callers { (i : Places) → ((m : ℕ) → IsLayout (i.layouts m)) → (frames : List (Frame State)) (m : ℕ) (own under : List ℕ) (g : Regs) (s : Spot)
        (w v : ℕ) → IsSpot (i.layouts m) s w → length own ≡ frame_size (i.layouts m) → Callers i frames m own under g
        → Callers i frames m (frame_with s w own v) under (registers_with s w g v) }
    ensures points { (l : Layout) (own under : List ℕ) (g : Regs) (s : Spot) (w v : ℕ) → IsSpot l s w → Points l own under g
        → Points l (frame_with s w own v) under (registers_with s w g v) }
{}
