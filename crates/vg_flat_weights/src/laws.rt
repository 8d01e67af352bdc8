// How many instructions packed code becomes.
ghost use Rattle.std.specs.Prelude.{◌≡◌, ◌≤◌, ◌⊎◌, ℕ, ◌+◌, ◌-◌, length};
ghost use Rattle.vg_meaning.specs.Code.{Code};
ghost use Rattle.vg_firm.specs.declared.step.Step.{Step};
ghost use Rattle.vg_firm.specs.Program.{Procedure as FirmProcedure};
ghost use Rattle.vg_lin.specs.Program.{Procedure};
ghost use Rattle.vg_flatten_shapes.specs.declared.layout.Layout.{Layout};
ghost use Rattle.vg_flatten_shapes.specs.declared.room.Room.{Room};
ghost use Rattle.vg_flatten_shapes.specs.Shapes.{Shape};
ghost use Rattle.vg_flatten_shapes.specs.Blocks.{Block, block_size};
ghost use Rattle.vg_flatten_shapes.specs.Made.{Gives};
ghost use Rattle.vg_flatten_control.specs.Flat.{flat};
ghost use Rattle.vg_flatten_pushed.specs.Stacked.{stacked};
ghost use Rattle.vg_flatten.specs.Flattened.{IsFlat, whole};
ghost use Rattle.vg_flat_sizes.specs.Weights.{flat_weight};

/// What packed code becomes is at most as large as the code weighs, whether its waiting values have homes of their own or the oldest of them are pushed;
/// and so is a whole procedure, but for one instruction for each local that is no parameter, and one for the end of the body. The body is empty: its
/// contract is a law of the definitions.
pub fn flat_code_is_short()
    ensures code { (lay : Layout) (r : Room) (most : ℕ) (c : Code Step) (s t : Shape) (b : Block)
        → (flat lay r c s ≡ Gives b t) ⊎ (stacked lay r most c s ≡ Gives b t) → block_size b ≤ flat_weight c }
    ensures whole { (m : FirmProcedure) (b : Block) → block_size b ≤ flat_weight m.body
        → block_size (whole m b) ≤ length m.widths - m.params + flat_weight m.body + 1 }
    ensures procedures { (lay : Layout) (m : FirmProcedure) (p : Procedure) → IsFlat lay m p
        → length p.code ≤ length m.widths - m.params + flat_weight m.body + 1 }
{}
