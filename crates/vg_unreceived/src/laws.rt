// The laws of what procedures receive.
ghost use Rattle.std.specs.Prelude.{◌≡◌, ℕ, true, false, List, Option};
ghost use Rattle.std.specs.List.{AllByRecursion};
ghost use Rattle.vg_firm.specs.Program.{Procedure as FirmProcedure};
ghost use Rattle.vg_lin.specs.declared.instr.Instr.{Instr};
ghost use Rattle.vg_lin.specs.Program.{Procedure};
ghost use Rattle.vg_expand.specs.Code.{expanded};
ghost use Rattle.vg_finding.specs.Finders.{with_finders};
ghost use Rattle.vg_flatten_shapes.specs.declared.layout.Layout.{Layout};
ghost use Rattle.vg_flatten.specs.Flattened.{IsFlat};
ghost use Rattle.vg_flat_each.specs.Each.{EachStep};
ghost use Rattle.vg_flat_names.specs.Names.{Names, NoReceiver};
ghost use Rattle.vg_templates.specs.Living.{reads, is_live};
ghost use Rattle.vg_templates.specs.Framed.{framed};
ghost use Rattle.vg_followed.specs.Stands.{ReceivesNothing};

/// A local that no instruction names is live at no place. The body is empty: its contract is a law of the definitions, as that below.
pub fn what_is_not_named_is_dead()
    ensures { (local : ℕ) (code : List Instr) (place : ℕ) → AllByRecursion (Names (λ a. reads a local ≡ false)) code → is_live code local place ≡ false }
{}

/// Laws of procedures that are flattened and expanded, and not trimmed. Where one gets a receiver that no step of it names, none of its instructions names
/// the first local, and that is not live where it begins. So a procedure without parameters receives nothing, whether it gets a receiver or not; and so it is
/// with calls of finders in place of look-ups.
pub fn what_takes_nothing_receives_nothing()
    ensures unread { (lay : Layout) (first : ℕ) (m : FirmProcedure) (p : Procedure) → IsFlat lay m p → EachStep NoReceiver m.body → m.receives ≡ true
        → AllByRecursion (Names (λ a. reads a 0 ≡ false)) (expanded first p).code }
    ensures dead { (lay : Layout) (first : ℕ) (m : FirmProcedure) (p : Procedure) → IsFlat lay m p → EachStep NoReceiver m.body → m.receives ≡ true
        → is_live (expanded first p).code 0 0 ≡ false }
    ensures nothing { (lay : Layout) (first : ℕ) (m : FirmProcedure) (p : Procedure) → IsFlat lay m p → EachStep NoReceiver m.body → m.params ≡ 0
        → ReceivesNothing (framed (expanded first p)) }
    ensures found { (lay : Layout) (first : ℕ) (m : FirmProcedure) (p : Procedure) → IsFlat lay m p → EachStep NoReceiver m.body
        → (numbers : List (Option ℕ)) → m.params ≡ 0 → ReceivesNothing (framed (with_finders numbers (expanded first p))) }
{}
