// The laws of tests with their branches, and of jumps.
ghost use Rattle.std.specs.Prelude.{ℕ, ◌≡◌, ◌≢◌, ◌+◌, ◌<◌, ◌≤◌, Bool, List, ◌++◌, Some};
ghost use Rattle.avr_instr.specs.declared.instr.Instr.TheVariants.{Jmp, Rjmp};
ghost use Rattle.avr_isa.specs.Flow.{near_from, far_from};
ghost use Rattle.avr_isa.specs.Machine.{State as MachineState};
ghost use Rattle.avr_isa.specs.Standing.{widths, StandsAt, AllStandAt};
ghost use Rattle.vg_lin.specs.declared.instr.Test.{Test};
ghost use Rattle.vg_lin.specs.Steps.{Frame};
ghost use Rattle.vg_lin.specs.State.{State, value};
ghost use Rattle.vg_lin.specs.Values.{compared};
ghost use Rattle.avr_view.specs.Run.{Run, Goes};
ghost use Rattle.avr_view.specs.View.{View, At};
ghost use Rattle.vg_templates.specs.Layouts.{IsLayout};
ghost use Rattle.vg_templates.specs.Frames.{Places};
ghost use Rattle.vg_templates.specs.Held.{Held, IsReady};
ghost use Rattle.vg_templates.specs.Pieces.{Sees};
ghost use Rattle.vg_templates.specs.Outcomes.{Lies, IsKept};
ghost use Rattle.vg_templates.specs.Branches.{tests, told_by, near_branch, far_branch, Branched, is_taken};

/// Laws of branches: from where the code of a test stands with its branch, the run comes to the place of the branch where the test gives the truth value
/// that is wanted, and behind the code else; the procedure lies there as before. One branch reaches near by, and the other one any word address.
pub fn branches_lead()
    ensures near { (e : Run) (i : Places) → ((m : ℕ) → IsLayout (i.layouts m)) → (m : ℕ) (frames : List (Frame State)) (live : ℕ → Bool)
        (behind : Bool → ℕ → Bool) (s : State) (t : Test) (wanted : Bool) (x y k to pc : ℕ) (v : View) (q : MachineState) → 0 < t.width → t.width ≤ 4
        → IsReady (i.layouts m) live t.left → IsReady (i.layouts m) live t.right → ((b : Bool) → IsKept live (behind b)) → value t.left s ≡ Some x
        → value t.right s ≡ Some y → Held i m live s frames v
        → (let is = tests (i.layouts m) t in
        AllStandAt e.flash pc (is ++ near_branch (told_by t.comparison) wanted k) → pc + widths is + 1 < 65536 → near_from (pc + widths is) k ≡ to
        → At e pc v q
        → Goes e ⊥ 1 q (Branched e i m behind s frames v.out (is_taken wanted (compared t.comparison t.width x y)) to (pc + widths is + 1))) }
    ensures far { (e : Run) (i : Places) → ((m : ℕ) → IsLayout (i.layouts m)) → (m : ℕ) (frames : List (Frame State)) (live : ℕ → Bool)
        (behind : Bool → ℕ → Bool) (s : State) (t : Test) (wanted : Bool) (x y to pc : ℕ) (v : View) (q : MachineState) → 0 < t.width → t.width ≤ 4
        → IsReady (i.layouts m) live t.left → IsReady (i.layouts m) live t.right → ((b : Bool) → IsKept live (behind b)) → value t.left s ≡ Some x
        → value t.right s ≡ Some y → Held i m live s frames v
        → (let is = tests (i.layouts m) t in
        AllStandAt e.flash pc (is ++ far_branch (told_by t.comparison) wanted to) → pc + widths is + 3 < 65536 → to ≢ pc + widths is + 1 → At e pc v q
        → Goes e ⊥ 1 q (Branched e i m behind s frames v.out (is_taken wanted (compared t.comparison t.width x y)) to (pc + widths is + 3))) }
{}

/// Laws of jumps, by JMP and by RJMP where it reaches: the run comes to the other place, and the procedure lies there as before.
pub fn jumps_lead()
    ensures far { (e : Run) (i : Places) → ((m : ℕ) → IsLayout (i.layouts m)) → (m : ℕ) (frames : List (Frame State)) (live behind : ℕ → Bool) (s : State)
        (to pc : ℕ) (v : View) (q : MachineState) → IsKept live behind → Held i m live s frames v → StandsAt e.flash pc (Jmp to) → to ≢ pc → At e pc v q
        → Goes e ⊥ 1 q (Sees e (Lies i m behind s frames v.out) to) }
    ensures near { (e : Run) (i : Places) → ((m : ℕ) → IsLayout (i.layouts m)) → (m : ℕ) (frames : List (Frame State)) (live behind : ℕ → Bool) (s : State)
        (k to pc : ℕ) (v : View) (q : MachineState) → IsKept live behind → Held i m live s frames v → StandsAt e.flash pc (Rjmp k)
        → far_from pc k ≡ to → to ≢ pc → At e pc v q → Goes e ⊥ 1 q (Sees e (Lies i m behind s frames v.out) to) }
{}
