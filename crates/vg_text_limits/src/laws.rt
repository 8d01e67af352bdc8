// The laws of limits.
ghost use Rattle.std.specs.Prelude.{◌≡◌, ◌≤◌, ℕ, List, Some, None, length, map, slice_get};
ghost use Rattle.vg_syntax.specs.Tree.{Node};
ghost use Rattle.vg_source.specs.Names.{Name};
ghost use Rattle.vg_source.specs.Program.{declarations_of, source_of};
ghost use Rattle.vg_rules.specs.Refusal.{refusal_of};
ghost use Rattle.vg_method_sizes.specs.Sizes.{Size, sizes};
ghost use Rattle.vg_source_ranges.specs.Ranges.{IsSmall, IsWide};
ghost use Rattle.vg_source_ranges.specs.Routines.{HaveMembers};
ghost use Rattle.vg_source_ranges.specs.Spelled.{AreSpelled};
ghost use Rattle.vg_core.specs.declared.program.Field.{Field};
ghost use Rattle.vg_core.specs.declared.program.Method.{Method};
ghost use Rattle.vg_core.specs.declared.program.Target.{Target};
ghost use Rattle.vg_core.specs.declared.program.Tables.{Tables};
ghost use Rattle.vg_core.specs.declared.step.Step.{Step};
ghost use Rattle.vg_core.specs.Naming.{Naming, naming_of, named_type};
ghost use Rattle.vg_core.specs.Naming as naming;
ghost use Rattle.vg_core.specs.Program.{Body, Program, Signature, signature_of, body_of};
ghost use Rattle.vg_core.specs.Typing.{WellTyped};
ghost use Rattle.vg_renamed.specs.NamesTell.{NamesTell};
ghost use Rattle.vg_written.specs.Written.{AreWritten};
ghost use Rattle.vg_live.specs.Uses.{steps_of};
ghost use Rattle.vg_text_limits.specs.Calls.{IsShortCall};

/// A text that is refused for nothing has methods, constructions and initialisations of at most 60 parameters, where the names of its typed program
/// tell its numbers apart. The body is empty: its contract is a law of the definitions, as those below.
pub fn texts_have_few_parameters()
    ensures { (text : Node) (n : Naming) (p : Program) → refusal_of text ≡ None → source_of text ≡ naming.named n p → NamesTell n p
        → (t : Target) (g : Signature) → signature_of p.tables t ≡ Some g → length g.params ≤ 60 }
{}

/// It has at most 2000 methods.
pub fn texts_have_few_methods()
    ensures { (text : Node) (p : Tables) → refusal_of text ≡ None
        → map (λ (m : Method). m.nodes) p.methods ≡ map (λ (s : Size). s.nodes) (sizes text) → length p.methods ≤ 2000 }
{}

/// Its fields are of types whose values have bits, and their bit strings have at most 32, where it is spelled as the grammar spells it
/// and members alone stand in its classes and components.
pub fn fields_are_of_written_types()
    ensures small { (texts : List Name) (text : Node) (most : ℕ) (p : Tables) → refusal_of text ≡ None
        → HaveMembers (declarations_of text) → AreSpelled most text → AreWritten texts text p
        → (f : ℕ) (y : Field) → slice_get p.fields f ≡ Some y → IsSmall (named_type (naming_of texts p) p y.type_) }
    ensures wide { (texts : List Name) (text : Node) (most : ℕ) (p : Tables) → refusal_of text ≡ None
        → HaveMembers (declarations_of text) → AreSpelled most text → AreWritten texts text p
        → (f : ℕ) (y : Field) → slice_get p.fields f ≡ Some y → IsWide (named_type (naming_of texts p) p y.type_) }
{}

/// Its calls of methods that they name have at most 60 arguments.
pub fn known_calls_are_short()
    ensures { (text : Node) (n : Naming) (p : Program) → refusal_of text ≡ None → source_of text ≡ naming.named n p → NamesTell n p → WellTyped p
        → ((t : Target) (b : Body) → body_of p t ≡ Some b → (g : Signature) × (signature_of p.tables t ≡ Some g))
        → (m i : ℕ) (s : Step) → slice_get (steps_of p m) i ≡ Some s → IsShortCall s }
{}
