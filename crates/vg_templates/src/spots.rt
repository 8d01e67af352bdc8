// The laws of values at spots.
ghost use Rattle.std.specs.Prelude.{ℕ, ◌≡◌, ◌+◌, ◌≤◌, List, ◌++◌};
ghost use Rattle.avr_view.specs.Run.{Run};
ghost use Rattle.avr_view.specs.View.{View};
ghost use Rattle.vg_templates.specs.Spots.{Spot, number, value_at};
ghost use Rattle.vg_templates.specs.Pieces.{Takes};
ghost use Rattle.vg_templates.specs.Transfers.{known, known_number, fetch, keep};
ghost use Rattle.vg_templates.specs.Transferred.{IsUsable, Fetched, Kept};

/// Laws of values that come into scratch registers, from r18 to r27: a known number into any registers, and the value at a spot of one to four bytes,
/// in the frame, however far from Y, or in registers. They get its low bytes, with zeros behind it where they are more.
pub fn values_come()
    ensures known { (e : Run) (d count x : ℕ) (v : View) → Takes e ⊥ v (known d count x) (Fetched d count x v) }
    ensures number { (e : Run) (d count x : ℕ) (v : View) → Takes e ⊥ v (known_number d count x) (Fetched d count x v) }
    ensures fetch { (e : Run) (s : Spot) (w d count : ℕ) (v : View) (wait own under : List ℕ) → v.stack ≡ wait ++ (own ++ under)
        → IsUsable s w own under v → w ≤ 4 → 18 ≤ d → d + count ≤ 28 → v.regs.of 1 ≡ 0
        → Takes e ⊥ v (fetch s w d count) (Fetched d count (value_at s w own v.regs) v) }
{}

/// A law of numbers in scratch registers, from r18 to r27, that go to a spot of one to four bytes: it gets the low bytes, with zeros behind them where
/// it has more.
pub fn values_go()
    ensures { (e : Run) (s : Spot) (w r count : ℕ) (v : View) (wait own under : List ℕ) → v.stack ≡ wait ++ (own ++ under)
        → IsUsable s w own under v → w ≤ 4 → 18 ≤ r → r + count ≤ 28 → v.regs.of 1 ≡ 0
        → Takes e ⊥ v (keep s w r count) (Kept s w (number v.regs r count) wait own under v) }
{}
