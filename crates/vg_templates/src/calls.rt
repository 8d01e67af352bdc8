// The laws of procedures that wait for others.
ghost use Rattle.std.specs.Prelude.{ℕ, ◌≡◌, ◌+◌, ◌%◌, ◌^◌, ◌<◌, ◌⊎◌, Bool, true, List, ◌∷◌, ◌++◌, length, map, reverse};
ghost use Rattle.vg_lin.specs.Meaning.{begun, same_widths, values_of};
ghost use Rattle.vg_lin.specs.Steps.{Awaits, Frame};
ghost use Rattle.vg_lin.specs.State.{Waiting, State};
ghost use Rattle.avr_view.specs.Registers.{Regs};
ghost use Rattle.vg_templates.specs.Layouts.{Layout, IsLayout, IsReliable, IsIn, Outlive, frame_size};
ghost use Rattle.vg_templates.specs.Spots.{InFrame};
ghost use Rattle.vg_templates.specs.Frames.{Fits, Waits, saved_bytes, found, Places, word_bytes, between, back_to, needed, Points, Callers, Stacked};
ghost use Rattle.vg_templates.specs.Frames.{Pushed, bytes_behind, width_at, number_at};

/// A law of callers: what a procedure does with scratch registers, and with registers that it has saved, those that wait for it do not see.
pub fn callers_keep()
    ensures { (i : Places) → ((m : ℕ) → IsLayout (i.layouts m)) → (frames : List (Frame State)) (m : ℕ) (own under : List ℕ) (old new : Regs)
        → length (saved_bytes (i.layouts m) own) ≡ length (i.layouts m).saved
        → ((d : ℕ) → IsReliable d → IsIn d (i.layouts m).saved ⊎ (new.of d ≡ old.of d))
        → Callers i frames m own under old → Callers i frames m own under new }
{}

/// Laws of calls and interrupts: a procedure whose frame is its slots, the bytes of the registers that it saves, where it goes back to, and its
/// arguments, has the one that waits for it as its newest caller; and when it goes back, the caller finds its registers, what waits and its locals.
pub fn callers_wait()
    ensures begin { (i : Places) → ((m : ℕ) → IsLayout (i.layouts m)) → (q m pc : ℕ) (a : Awaits) (kept : State) (frames : List (Frame State))
        (slots args wait own under : List ℕ) (old new : Regs) → length slots ≡ (i.layouts q).slots
        → ((d : ℕ) → IsReliable d → IsIn d (i.layouts q).saved ⊎ (new.of d ≡ old.of d))
        → Points (i.layouts m) own under old → Waits kept.waiting wait → Fits (i.layouts m) (needed i m a pc) kept.locals own old
        → Callers i frames m own under old
        → Callers i (record { proc = m; pc = pc; kept = kept; awaits = a } ∷ frames) q
        (slots ++ (map old.of (i.layouts q).saved ++ (word_bytes (back_to i a q m pc) ++ args))) (between i a m pc ++ (wait ++ (own ++ under))) new }
    ensures resume { (i : Places) → ((m : ℕ) → IsLayout (i.layouts m)) → (q : ℕ) (f : Frame State) (frames : List (Frame State)) (own under : List ℕ)
        (old new : Regs) → Outlive (found (i.layouts q) own old) new → (k : Callers i (f ∷ frames) q own under old)
        → Stacked i f.proc (needed i f.proc f.awaits f.pc) f.kept frames (k.0.wait ++ (k.0.own ++ k.0.under)) new }
{}

/// Laws of arguments: what waits, read in the order in which it was pushed, has its first value deepest and the others before it; and where the
/// parameters of a procedure that begins have these places behind what lies in front, with values that were cut to their widths, they lie at their spots.
pub fn arguments_lie()
    ensures order { (waiting : List Waiting) (bytes : List ℕ) → Waits waiting bytes → Pushed (reverse waiting) bytes }
    ensures fit { (l : Layout) (live : ℕ → Bool) (pushed : List Waiting) (others front args : List ℕ) (g : Regs) → same_widths l.widths pushed ≡ true
        → ((k : ℕ) → k < length pushed → l.spots k ≡ InFrame (length front + bytes_behind pushed k))
        → ((k : ℕ) → k < length pushed → number_at pushed k % 256 ^ width_at pushed k ≡ number_at pushed k)
        → ((k : ℕ) → live k ≡ true → k < length pushed) → Pushed pushed args → length (front ++ args) ≡ frame_size l
        → Fits l live (begun l.widths (values_of pushed ++ others)) (front ++ args) g }
{}
