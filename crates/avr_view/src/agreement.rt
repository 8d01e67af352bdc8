// The laws that lead to what it means that a flash agrees with a session.
ghost use Rattle.std.specs.Prelude.{ℕ, ◌≡◌, ◌<◌, ◌≤◌, List, Some};
ghost use Rattle.vg_meaning.specs.Ending.{Idle, Stop, Wants, Beyond};
ghost use Rattle.vg_meaning.specs.Outside.{Outside};
ghost use Rattle.vg_meaning.specs.Seen.{Seen};
ghost use Rattle.avr_isa.specs.declared.ending.MachineEnd.TheVariants as machine_end;
ghost use Rattle.avr_isa.specs.Agrees.{FollowsSeen};
ghost use Rattle.avr_isa.specs.Cpu.{PowerOn};
ghost use Rattle.avr_isa.specs.Machine.{started, machine};
ghost use Rattle.avr_view.specs.Run.{Run, Goes, Ended};
ghost use Rattle.avr_view.specs.View.{Shown};

/// Laws of whole runs: the machine does what a session shows, where its run from reset goes to an end with this trace, or goes on so long and has shown it;
/// or where its stack reaches below the floor first, for which the calls must cost more than the stack.
pub fn runs_agree()
    ensures idle { (e : Run) (memory : PowerOn) (reads interrupts : List ℕ) (clock n stack : ℕ) (s : Seen) → e.whole ≡ s.trace
        → (o : Outside) → s.ending ≡ Some Idle → o.trace ≡ s.trace
        → Goes e (stack < s.peak) n (started memory reads interrupts) (Ended e machine_end.Idle o)
        → FollowsSeen (machine e.flash memory reads interrupts) clock e.floor stack s }
    ensures stop { (e : Run) (memory : PowerOn) (reads interrupts : List ℕ) (clock n stack : ℕ) (s : Seen) → e.whole ≡ s.trace
        → (o : Outside) (code : ℕ) → s.ending ≡ Some (Stop code) → o.trace ≡ s.trace
        → Goes e (stack < s.peak) n (started memory reads interrupts) (Ended e (machine_end.Stop code) o)
        → FollowsSeen (machine e.flash memory reads interrupts) clock e.floor stack s }
    ensures wants { (e : Run) (memory : PowerOn) (reads interrupts : List ℕ) (clock n stack : ℕ) (s : Seen) → e.whole ≡ s.trace
        → (o : Outside) (address : ℕ) → s.ending ≡ Some (Wants address) → o.trace ≡ s.trace
        → Goes e (stack < s.peak) n (started memory reads interrupts) (Ended e (machine_end.Wants address) o)
        → FollowsSeen (machine e.flash memory reads interrupts) clock e.floor stack s }
    ensures beyond { (e : Run) (memory : PowerOn) (reads interrupts : List ℕ) (clock n stack : ℕ) (s : Seen) → e.whole ≡ s.trace
        → s.ending ≡ Some Beyond → clock ≤ n → Goes e (stack < s.peak) n (started memory reads interrupts) (Shown e s.trace)
        → FollowsSeen (machine e.flash memory reads interrupts) clock e.floor stack s }
{}
