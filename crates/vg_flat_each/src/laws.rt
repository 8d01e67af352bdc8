// The law of each instruction of flattened code.
ghost use Rattle.std.specs.Prelude.{◌≡◌, Bool, true};
ghost use Rattle.std.specs.List.{AllByRecursion};
ghost use Rattle.vg_firm.specs.Program.{Procedure as FirmProcedure};
ghost use Rattle.vg_lin.specs.declared.instr.Instr.{Instr};
ghost use Rattle.vg_lin.specs.Program.{Procedure};
ghost use Rattle.vg_flatten_shapes.specs.declared.layout.Layout.{Layout};
ghost use Rattle.vg_flatten.specs.Flattened.{IsFlat};
ghost use Rattle.vg_flat_each.specs.Each.{Carries, StepHas, EachStep};

/// A law of flattened code. A test that holds of all instructions which name no device and no dispatch and do not idle, of those that use the devices and the
/// dispatches which the steps of a packed procedure name, and of idling where a step idles, holds of each instruction that the procedure becomes, whether its
/// waiting values have homes of their own or the oldest of them are pushed. The body is empty: its contract is a law of the definitions.
pub fn flattened_code_keeps()
    ensures { (has : Instr → Bool) → Carries (λ i. has i ≡ true) → (lay : Layout) (m : FirmProcedure) (p : Procedure) → IsFlat lay m p
        → EachStep (StepHas (λ i. has i ≡ true)) m.body → AllByRecursion (λ i. has i ≡ true) p.code }
{}
