// The laws of the flattening of typed procedures that weigh little.
ghost use Rattle.std.specs.Prelude.{ℕ, ◌≡◌, ◌+◌, ◌-◌, ◌<◌, ◌≤◌, false, length};
ghost use Rattle.vg_base.specs.declared.refusal.Refusal.{Refusal};
ghost use Rattle.vg_base.specs.declared.refusal.Refusal.TheVariants.{NoMemory};
ghost use Rattle.vg_code_counts.specs.Each.{EachStep};
ghost use Rattle.vg_firm.specs.Program.{Procedure};
ghost use Rattle.vg_flatten_shapes.specs.declared.fault.Fault.{Fault};
ghost use Rattle.vg_flatten_shapes.specs.declared.layout.Layout.{Layout};
ghost use Rattle.vg_firm_typed.specs.Typed.{Typed};
ghost use Rattle.vg_firm_typed_any.specs.TypedFor.{IsTypedFor, TakesFew};
ghost use Rattle.vg_flatten.specs.Flattened.{IsFlatFrom, IsPushedFrom, own_widths, temps_for};
ghost use Rattle.vg_flatten.specs.Refusals.{IsCause};
ghost use Rattle.vg_flat_sizes.specs.Weights.{flat_weight};

/// A typed procedure which weighs no more than there is room for is refused for want of memory alone.
/// The body is empty: its contract is a law of the definitions.
pub fn short_are_taken()
    ensures { (lay : Layout) (m : Procedure) (e : Refusal Fault) → IsTypedFor lay m
        → length m.widths - m.params + flat_weight m.body + 1 ≤ 65519 → IsCause e lay m → e ≡ NoMemory }
{}

/// And where at most so many values wait in it at one time, as many temporaries are enough to give each waiting value a home, if they find room. The body
/// is empty: its contract is a law of the definitions.
pub fn typed_need_few_temporaries()
    ensures { (lay : Layout) (m : Procedure) (most : ℕ) → length m.widths ≤ 60
        → Typed (record { layout = lay; locals = length m.widths; most = most }) false 0 m.body 0 0 → most ≤ temps_for (length (own_widths m))
        → length m.widths - m.params + flat_weight m.body + 1 ≤ 65519 → IsFlatFrom lay m most }
{}

/// And where more wait than there is room for in temporaries, it is enough to push as many as find none. The body is empty: its contract is a law of the
/// definitions.
pub fn typed_need_few_pushed()
    ensures { (lay : Layout) (m : Procedure) (most : ℕ) → length m.widths ≤ 60
        → Typed (record { layout = lay; locals = length m.widths; most = most }) false 0 m.body 0 0 → EachStep (TakesFew 189) m.body
        → temps_for (length (own_widths m)) < most → most ≤ 65535 → length m.widths - m.params + flat_weight m.body + 1 ≤ 65519
        → IsPushedFrom lay m (most - temps_for (length (own_widths m))) }
{}
