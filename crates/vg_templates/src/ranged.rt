// The law of operands in range.
ghost use Rattle.std.specs.Prelude.{ℕ, Bool};
ghost use Rattle.std.specs.List.{AllByRecursion};
ghost use Rattle.avr_instr.specs.Spelled.{InRange};
ghost use Rattle.vg_lin.specs.declared.instr.Plain.{Plain};
ghost use Rattle.vg_templates.specs.Layouts.{Layout, IsLayout};
ghost use Rattle.vg_templates.specs.Straight.{plain_code, IsCovered};

/// A law of the templates of plain instructions: where they can be used, the operands of each of their instructions are in range. So far as a frame goes,
/// displacements reach.
pub fn templates_can_be_spelled()
    ensures { (l : Layout) → IsLayout l → (live behind : ℕ → Bool) (codes : ℕ → ℕ) (q : Plain) → IsCovered l live behind q
        → AllByRecursion InRange (plain_code l codes q) }
{}
