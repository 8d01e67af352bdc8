// The laws of sums and differences.
ghost use Rattle.std.specs.Prelude.{ℕ, ◌+◌, ◌%◌, ◌^◌, ◌<◌, ◌≤◌, List, length};
ghost use Rattle.avr_view.specs.Registers.{Regs, does_all};
ghost use Rattle.vg_templates.specs.Spots.{number};
ghost use Rattle.vg_templates.specs.Numbers.{number_in, HoldBytes, AreBeside};
ghost use Rattle.vg_templates.specs.Chains.{adds, subtracts, takes_known};
ghost use Rattle.vg_templates.specs.Chained.{Summed, Taken};

/// Laws of chains of ADD with ADC, of SUB with SBC and of SUBI with SBCI: behind them the registers from d on hold the sum or the difference of the
/// number there and the right one, with the carry out of it; all others are as they were. The registers of the right number stand beside those of the
/// result.
pub fn chains_sum()
    ensures adds { (flash : List ℕ) (low high d : ℕ) (right : List ℕ) (g : Regs) → high ≤ 32 → low ≤ d → d + length right ≤ high
        → AreBeside low high right → HoldBytes g → 0 < length right
        → Summed d (length right) (number g d (length right)) (number_in g right) 0 g (does_all flash (adds d right) g) }
    ensures subtracts { (flash : List ℕ) (low high d : ℕ) (right : List ℕ) (g : Regs) → high ≤ 32 → low ≤ d → d + length right ≤ high
        → AreBeside low high right → HoldBytes g → 0 < length right
        → Taken d (length right) (number g d (length right)) (number_in g right) 0 g (does_all flash (subtracts d right) g) }
    ensures known { (flash : List ℕ) (d count x : ℕ) (g : Regs) → d + count ≤ 32 → HoldBytes g → 0 < count
        → Taken d count (number g d count) (x % 256 ^ count) 0 g (does_all flash (takes_known d count x) g) }
{}
