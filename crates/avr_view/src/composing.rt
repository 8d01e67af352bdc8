// The laws of how runs go on.
ghost use Rattle.std.specs.Prelude.{ℕ, ◌≡◌, ◌+◌, ◌-◌, ◌≤◌, List, ◌++◌, length};
ghost use Rattle.avr_isa.specs.Machine.{State};
ghost use Rattle.avr_view.specs.Memory.{Divided};
ghost use Rattle.avr_view.specs.Run.{Run, Goes};

/// States of two kinds, and whether a run is deep enough to reach below the floor.
pub trait Kinds {
    ghost first: { State → Type 0 };

    ghost second: { State → Type 0 };

    ghost deep: { Type 0 };
}

/// Laws of runs: where a run goes to a state of the first kind, and goes on from each of them to one of the second kind, it goes there as a whole,
/// in the sum of both numbers of instructions; or its stack reaches below the floor in one of the two parts. The body is empty: its contract is a
/// law of the definitions, as are those of the other laws here.
pub fn runs_compose<K: Kinds>()
    ensures then { (e : Run) (n m : ℕ) (s : State) → Goes e K.deep n s K.first → ((t : State) → K.first t → Goes e K.deep m t K.second)
        → Goes e K.deep (n + m) s K.second }
    ensures fewer { (e : Run) (n m : ℕ) (s : State) → m ≤ n → Goes e K.deep n s K.first → Goes e K.deep m s K.first }
{}

/// Laws of SRAM: where the stack is lowered, the bytes between are free ones as they were; where it is raised, they are free again.
pub fn sram_is_divided()
    ensures top { (static stack sram : List ℕ) (sp : ℕ) → Divided static stack sram sp → sp + 1 + length stack ≡ 0x1100 }
    ensures lowered { (static stack sram : List ℕ) (sp n : ℕ) → Divided static stack sram sp → 0x100 + length static + n ≤ sp + 1
        → (x : List ℕ) × (length x ≡ n) × Divided static (x ++ stack) sram (sp - n) }
    ensures raised { (static x stack sram : List ℕ) (sp : ℕ) → Divided static (x ++ stack) sram sp → Divided static stack sram (sp + length x) }
{}
