// The laws of what flattened and expanded code names.
ghost use Rattle.std.specs.Prelude.{◌≡◌, ℕ, ◌+◌, Bool, true};
ghost use Rattle.std.specs.List.{AllByRecursion};
ghost use Rattle.vg_firm.specs.Program.{Procedure as FirmProcedure};
ghost use Rattle.vg_lin.specs.declared.instr.Operand.{Operand};
ghost use Rattle.vg_lin.specs.declared.instr.Operand.TheVariants.{Local, Known};
ghost use Rattle.vg_lin.specs.Program.{Procedure};
ghost use Rattle.vg_expand.specs.Code.{expanded};
ghost use Rattle.vg_flatten_shapes.specs.declared.layout.Layout.{Layout};
ghost use Rattle.vg_flatten.specs.Flattened.{receivers, IsFlat};
ghost use Rattle.vg_flat_each.specs.Each.{EachStep};
ghost use Rattle.vg_flat_names.specs.Names.{Names, NoReceiver};

/// A law of flattened code. What holds of all known values, and of each local behind the receiver, holds of all operands and set locals of the
/// instructions that a packed procedure becomes, whether its waiting values have homes of their own or the oldest of them are pushed, where no step of it
/// names the receiver. The body is empty: its contract is a law of the definitions, as that below.
pub fn flattened_code_names()
    ensures { (is_ok : Operand → Bool) → ((n : ℕ) → is_ok (Known n) ≡ true) → (m : FirmProcedure)
        → ((i : ℕ) → is_ok (Local (receivers m.receives + i)) ≡ true) → (lay : Layout) (p : Procedure) → IsFlat lay m p → EachStep NoReceiver m.body
        → AllByRecursion (Names (λ a. is_ok a ≡ true)) p.code }
{}

/// A law of expanded code. What holds of all known values, and of all operands and set locals of a procedure's instructions, holds of those of the
/// procedure with its arithmetic as calls of routines.
pub fn expanded_code_names()
    ensures { (is_ok : Operand → Bool) → ((n : ℕ) → is_ok (Known n) ≡ true) → (first : ℕ) (p : Procedure)
        → AllByRecursion (Names (λ a. is_ok a ≡ true)) p.code → AllByRecursion (Names (λ a. is_ok a ≡ true)) (expanded first p).code }
{}
