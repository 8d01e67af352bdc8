// The laws of the flattening of typed procedures.
ghost use Rattle.std.specs.Prelude.{ℕ, ◌≡◌, ◌+◌, ◌≤◌, false, length};
ghost use Rattle.vg_base.specs.declared.refusal.Refusal.{Refusal};
ghost use Rattle.vg_code_counts.specs.Each.{EachStep};
ghost use Rattle.vg_firm.specs.Program.{Procedure};
ghost use Rattle.vg_flatten_shapes.specs.declared.fault.Fault.{Fault};
ghost use Rattle.vg_flatten_shapes.specs.declared.layout.Layout.{Layout};
ghost use Rattle.vg_flatten_shapes.specs.Shapes.{empty};
ghost use Rattle.vg_flatten_pushed.specs.Stacked.{stacked};
ghost use Rattle.vg_firm_typed.specs.Typed.{Typed};
ghost use Rattle.vg_firm_typed_any.specs.TypedFor.{IsTypedFor, TakesFew};
ghost use Rattle.vg_flatten.specs.Flattened.{own_widths, temps_for, room_with};
ghost use Rattle.vg_flatten.specs.Refusals.{IsCause};
ghost use Rattle.vg_flat_taken.specs.Taken.{IsClosed, IsMade, IsLeftFor, step_count};

/// Where the oldest values that wait are pushed, so many of them at most, and as many temporaries as there is room for are enough for the newer ones, a typed
/// procedure is made linear code of. Nothing waits at its end, and no jump out of a loop is left. The body is empty: its contract is a law of the definitions.
pub fn typed_are_pushed()
    ensures { (lay : Layout) (m : Procedure) (most pushes : ℕ) → length m.widths ≤ 60
        → Typed (record { layout = lay; locals = length m.widths; most = most }) false 0 m.body 0 0 → EachStep (TakesFew 189) m.body
        → 1 ≤ pushes → most ≤ pushes + temps_for (length (own_widths m))
        → IsClosed m (stacked lay (room_with (temps_for (length (own_widths m))) m) pushes m.body empty) }
{}

/// A typed procedure is made linear code of, where no more values wait than can be pushed and find room in temporaries: with a home for each value that waits;
/// or, where there are more than temporaries, with the oldest pushed. Nothing waits at its end, and no jump out of a loop is left.
pub fn typed_are_made()
    ensures { (lay : Layout) (m : Procedure) (typed : IsTypedFor lay m) → typed.most ≤ 65535 + temps_for (length (own_widths m)) → IsMade lay m }
{}

/// So such a procedure is refused for want of memory alone, or since the instructions that it would have are too many.
pub fn only_length_is_left()
    ensures { (lay : Layout) (m : Procedure) (e : Refusal Fault) (typed : IsTypedFor lay m) → typed.most ≤ 65535 + temps_for (length (own_widths m))
        → IsCause e lay m → IsLeftFor e lay m }
{}

/// In a typed procedure no more values wait than it has steps: it is typed, too, where only so many may wait, and two more.
pub fn no_more_wait_than_steps()
    ensures { (lay : Layout) (m : Procedure) → IsTypedFor lay m → (t : IsTypedFor lay m) × (t.most ≡ step_count m.body + 2) }
{}
