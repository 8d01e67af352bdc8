// The laws of comparisons.
ghost use Rattle.std.specs.Prelude.{ℕ, ◌≡◌, ◌<◌, nat_lt, List, length};
ghost use Rattle.avr_isa.specs.Flags.{differ};
ghost use Rattle.avr_view.specs.Registers.{Regs, does_all};
ghost use Rattle.vg_templates.specs.Numbers.{number_in, HoldBytes, AreRegisters};
ghost use Rattle.vg_templates.specs.Chains.{compares};
ghost use Rattle.vg_templates.specs.Chained.{Compared, from_least};

/// Laws of chains of CP with CPC: behind them C is set exactly where the left number is below the right one, Z exactly where they are the same, and
/// exactly one of N and V where the left one is less as a signed number; no register has changed.
pub fn chains_compare()
    ensures tell { (flash : List ℕ) (left right : List ℕ) (g : Regs) → length right ≡ length left → 0 < length left → AreRegisters left
        → AreRegisters right → HoldBytes g → Compared (number_in g left) (number_in g right) g (does_all flash (compares left right) g) }
    ensures less { (flash : List ℕ) (left right : List ℕ) (g : Regs) → length right ≡ length left → 0 < length left → AreRegisters left
        → AreRegisters right → HoldBytes g
        → (let h = does_all flash (compares left right) g in
        differ h.flags.negative h.flags.overflow ≡ nat_lt (from_least (length left) (number_in g left)) (from_least (length left) (number_in g right))) }
{}
