// The law of the types of parameters and locals.
ghost use Rattle.std.specs.Prelude.{◌≡◌, ◌++◌, ℕ, List, None, Some, map, reverse, slice_get};
ghost use Rattle.vg_syntax.specs.Tree.{Node, Param};
ghost use Rattle.vg_source.specs.Types.{StaticType};
ghost use Rattle.vg_source.specs.Declared.{written_type};
ghost use Rattle.vg_source.specs.Program.{declarations_of, scope_of};
ghost use Rattle.vg_source.specs.Resolved.{Fresh, Owner, Scope, resolved};
ghost use Rattle.vg_rules.specs.Bodies.{Body, breach};
ghost use Rattle.vg_rules.specs.Legal.{Legal};
ghost use Rattle.vg_source_ranges.specs.Routines.{HaveMembers};
ghost use Rattle.vg_written_locals.specs.Locals.{HaveWrittenTypes};
ghost use Rattle.vg_source_widths.specs.Sized.{AreSized, locals_of};

/// Code that breaks no rule, whose locals have written types, declares locals whose values have bits, and of whose bit strings none has more than 32,
/// where it is so for the parameters. The body is empty: its contract is a law of the definitions, as those below.
pub fn bodies_declare_sized_types()
    ensures { (ds : Node) (k : Body) (a : Node) (ls : Scope) → breach ds k a Fresh ls ≡ None → AreSized ls.declared → HaveWrittenTypes a
        → AreSized (resolved ds k.owner a Fresh ls).scope.declared }
{}

/// So it is for the parameters and locals of each method of a legal text where they have written types, and members alone stand in its classes and
/// components.
pub fn locals_have_sized_types()
    ensures { (text : Node) → Legal text → HaveMembers (declarations_of text) → HaveWrittenTypes text
        → (m : ℕ) (ts : List StaticType) → slice_get (locals_of text) m ≡ Some ts → AreSized ts }
{}

/// The types of parameters come first among those that a body behind them declares, in their order.
pub fn parameters_come_first()
    ensures { (ds : Node) (o : Owner) (ps : List Param) (body : Node) → (more : List StaticType)
        × (reverse (resolved ds o body Fresh (scope_of ps)).scope.declared ≡ map (λ (p : Param). written_type p.type) ps ++ more) }
{}
