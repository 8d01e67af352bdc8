// The laws of logic.
ghost use Rattle.std.specs.Prelude.{ℕ, ◌+◌, ◌≤◌, List, length, bit_and, bit_or, bit_xor};
ghost use Rattle.avr_view.specs.Registers.{Regs, does_all};
ghost use Rattle.vg_templates.specs.Spots.{number};
ghost use Rattle.vg_templates.specs.Numbers.{number_in, HoldBytes, AreBeside};
ghost use Rattle.vg_templates.specs.Chains.{ands, ors, eors};
ghost use Rattle.vg_templates.specs.Chained.{Computed};

/// Laws of chains of AND, OR and EOR: behind them the registers from d on hold what the operation makes of the number there and the right one; all others
/// are as they were. The registers of the right number stand beside those of the result.
pub fn chains_combine()
    ensures and { (flash : List ℕ) (low high d : ℕ) (right : List ℕ) (g : Regs) → high ≤ 32 → low ≤ d → d + length right ≤ high
        → AreBeside low high right → HoldBytes g
        → Computed d (length right) (bit_and (number g d (length right)) (number_in g right)) g (does_all flash (ands d right) g) }
    ensures or { (flash : List ℕ) (low high d : ℕ) (right : List ℕ) (g : Regs) → high ≤ 32 → low ≤ d → d + length right ≤ high
        → AreBeside low high right → HoldBytes g
        → Computed d (length right) (bit_or (number g d (length right)) (number_in g right)) g (does_all flash (ors d right) g) }
    ensures eor { (flash : List ℕ) (low high d : ℕ) (right : List ℕ) (g : Regs) → high ≤ 32 → low ≤ d → d + length right ≤ high
        → AreBeside low high right → HoldBytes g
        → Computed d (length right) (bit_xor (number g d (length right)) (number_in g right)) g (does_all flash (eors d right) g) }
{}
