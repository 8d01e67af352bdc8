// The law of what open procedures take.
ghost use Rattle.std.specs.Prelude.{ℕ, ◌≡◌, ◌+◌, ◌<◌, ◌≤◌, List, Some};
ghost use Rattle.vg_meaning.specs.Answer.{Wrong};
ghost use Rattle.vg_source.specs.Peak.{most};
ghost use Rattle.vg_lin.specs.Meaning.{run};
ghost use Rattle.vg_lin.specs.Program.{Program};
ghost use Rattle.vg_open_calls.specs.Open.{IsReady};
ghost use Rattle.vg_frame_costs.specs.Fitting.{FramesFit, FramesWithin};
ghost use Rattle.vg_open_costs.specs.Taken.{CallsAreDivided, EndsUnpushed, IsCutBack, LeadBefore, opening_of, taken};

/// Laws of programs whose frames fit, by costs of methods and so many bytes beside them, and whose calls take what waits only where none of their arguments go
/// in registers. The procedure with which a run begins takes at most these bytes when it begins; and before each of so many steps that do not end wrongly, nor
/// within a row of pushes, no more is taken than the calls cost at most that were active at an opening, and these bytes more. Where all procedures are within
/// frames, that is so by the frames themselves, and what lies below and above them once. The body is empty: its contract is a law of the definitions.
pub fn open_procedures_cost()
    ensures first { (p : Program) (extra : ℕ) (costs : List ℕ) → IsReady p → FramesFit p.procedures p.start extra costs → LeadBefore p
        → opening_of p p.start ≤ extra }
    ensures steps { (p : Program) (extra : ℕ) (costs : List ℕ) → IsReady p → FramesFit p.procedures p.start extra costs → LeadBefore p
        → CallsAreDivided p → (j n : ℕ) (reads interrupts : List ℕ) → j < n → EndsUnpushed p n reads interrupts
        → ((run p n reads interrupts).ending ≡ Some Wrong → ⊥) → taken p (run p j reads interrupts) ≤ extra + most costs (run p n reads interrupts).openings }
    ensures frames { (p : Program) (frames : List ℕ) (below above : ℕ) → IsReady p → FramesWithin p.procedures p.start frames below above → LeadBefore p
        → CallsAreDivided p → (j n : ℕ) (reads interrupts : List ℕ) → j < n → EndsUnpushed p n reads interrupts
        → ((run p n reads interrupts).ending ≡ Some Wrong → ⊥)
        → taken p (run p j reads interrupts) ≤ below + above + most frames (run p n reads interrupts).openings }
{}

/// A law of runs: one that did not end wrongly can be cut back to before its last row of pushes. The body is empty: its contract is a law of the definitions.
pub fn runs_cut_back()
    ensures { (p : Program) (n : ℕ) (reads interrupts : List ℕ) → ((run p n reads interrupts).ending ≡ Some Wrong → ⊥)
        → IsCutBack p n reads interrupts }
{}
