// The laws of the depth of the stack.
ghost use Rattle.std.specs.Prelude.{ℕ, ◌≡◌, ◌≤◌, Bool, List, length};
ghost use Rattle.avr_view.specs.Registers.{Regs};
ghost use Rattle.vg_lin.specs.Steps.{Frame};
ghost use Rattle.vg_lin.specs.State.{State};
ghost use Rattle.vg_templates.specs.Frames.{Places, Stacked, bytes_of};
ghost use Rattle.vg_templates.specs.Layouts.{IsLayout};
ghost use Rattle.vg_templates.specs.Depths.{stack_bytes, most_bytes, AtMostWait};

/// Laws of the stack of a procedure and of those that wait for it. It has exactly the bytes of what waits in them, of their frames, and of the two return
/// addresses at an interrupt; so where it is known how much may wait in each procedure, it has at most so many.
pub fn stacks_count()
    ensures exact { (i : Places) (m : ℕ) (live : ℕ → Bool) (s : State) (frames : List (Frame State)) (stack : List ℕ) (g : Regs)
        → Stacked i m live s frames stack g → length stack ≡ stack_bytes i m s.waiting frames }
    ensures most { (i : Places) (most : ℕ → ℕ) (m : ℕ) (live : ℕ → Bool) (s : State) (frames : List (Frame State)) (stack : List ℕ) (g : Regs)
        → bytes_of s.waiting ≤ most m → AtMostWait most frames → Stacked i m live s frames stack g → length stack ≤ most_bytes i most m frames }
{}
