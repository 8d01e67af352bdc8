// A field that is only assigned.
ghost use Rattle.std.specs.Prelude.{Some};
ghost use Rattle.vg_core.specs.declared.member.Member.TheVariants.{Field};
ghost use Rattle.vg_live.specs.Rules.{Live};
ghost use Rattle.vg_live_examples.specs.Assigned.{assigned, heap};

/// The field of the component that is read is live, and the field of the class that is only assigned is dead.
pub fn assigned_is_dead()
    ensures read { Live assigned heap (Some (Field 1)) }
    ensures dead { Live assigned heap (Some (Field 0)) → ⊥ }
{}
