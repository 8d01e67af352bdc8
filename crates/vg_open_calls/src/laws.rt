// The laws of open procedures.
ghost use Rattle.std.specs.Prelude.{ℕ, ◌≡◌, ◌⊎◌, ◌≤◌, List, [], ◌∷◌, None};
ghost use Rattle.vg_meaning.specs.History.{Active};
ghost use Rattle.vg_lin.specs.Meaning.{language, run};
ghost use Rattle.vg_lin.specs.Program.{Program};
ghost use Rattle.vg_lin.specs.Steps.{open_calls};
ghost use Rattle.vg_open_calls.specs.Noted.{IsAmong, IsNoted, CallsFirst, IsAtFirst};
ghost use Rattle.vg_open_calls.specs.Open.{IsReady, IsOpen};

/// A law of runs of sound procedures: what waits in each open procedure has the widths that its code tells, and each was opened at a call, with arguments as
/// wide as its parameters, or at an instruction that idles. The body is empty: its contract is a law of the definitions, as is that below.
pub fn open_procedures()
    ensures { (p : Program) → IsReady p → (n : ℕ) (reads interrupts : List ℕ) → IsOpen p (run p n reads interrupts) }
{}

/// Laws of what such a run notes. The calls that are open behind some steps are noted behind at least as many, where any are open; and behind the first call
/// it is noted as the only open one.
pub fn calls_are_noted()
    ensures all { (p : Program) → IsReady p → (language p).named p.start ≡ None → (j n : ℕ) (reads interrupts : List ℕ) → j ≤ n
        → IsNoted (open_calls (language p) (run p j reads interrupts).proc (run p j reads interrupts).frames) (run p n reads interrupts).openings }
    ensures first { (p : Program) (a : Active) → IsReady p → CallsFirst p a → (j n : ℕ) (reads interrupts : List ℕ) → j ≤ n
        → IsAtFirst p (run p j reads interrupts) ⊎ IsAmong (a ∷ []) (run p n reads interrupts).openings }
{}
