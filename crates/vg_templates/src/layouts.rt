// The laws of the layout of a procedure.
ghost use Rattle.std.specs.Prelude.{ℕ, suc, ◌≡◌, ◌<◌, true, Some, length, slice_get, slice_index};
ghost use Rattle.vg_lin.specs.declared.instr.Instr.{Instr};
ghost use Rattle.vg_lin.specs.Program.{Procedure};
ghost use Rattle.vg_templates.specs.Layouts.{IsLayout, outlives};
ghost use Rattle.vg_templates.specs.Calls.{HasParameters};
ghost use Rattle.vg_templates.specs.Living.{needs, leads_to, is_live, wants_back, lasts};
ghost use Rattle.vg_templates.specs.Framed.{framed, live_in, CanBeFramed};

/// Laws of the layout that keeps locals in registers as long as there is room, and all others in the frame, for widths of at most four bytes and fewer
/// than 4,096 in all: it is one as calls, returns and templates ask for it; the parameters lie where they were pushed, or those that are live go from the
/// registers in which they arrive to their spots; and a local whose value is wanted behind a call lies where it outlives it.
pub fn layouts_hold_all_locals()
    ensures layout { (m : Procedure) → CanBeFramed m.widths m.params → IsLayout (framed m) }
    ensures parameters { (m : Procedure) → CanBeFramed m.widths m.params → HasParameters (framed m) (live_in m 0) m.params }
    ensures outlives { (m : Procedure) → CanBeFramed m.widths m.params → (k : ℕ) → k < length m.widths → lasts m.code k ≡ true
        → outlives ((framed m).spots k) (slice_index m.widths k) ≡ true }
{}

/// Laws of what is live: a local is live at each place whose instruction needs it, and it lasts where one wants it back.
pub fn needed_locals_are_live()
    ensures live { (m : Procedure) (k pc : ℕ) (i : Instr) → slice_get m.code pc ≡ Some i
        → needs (is_live m.code k (suc pc)) (is_live m.code k (leads_to pc i)) k i ≡ true → is_live m.code k pc ≡ true }
    ensures lasting { (m : Procedure) (k pc : ℕ) (i : Instr) → slice_get m.code pc ≡ Some i → wants_back (is_live m.code k (suc pc)) k i ≡ true
        → lasts m.code k ≡ true }
{}
