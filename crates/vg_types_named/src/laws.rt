// Tables with names in place of numbers.
ghost use Rattle.std.specs.Prelude.{◌≡◌, ℕ, ◌==◌, List, true, None, Some, map, slice_get, bytes_eq};
ghost use Rattle.vg_syntax.specs.Tree.{Node};
ghost use Rattle.vg_source.specs.Program.{classes_in, components_in, globals_in, routines_in, with_numbers, program_of};
ghost use Rattle.vg_core.specs.Program.{Body, Program, Signature, signature_of, body_of};
ghost use Rattle.vg_core.specs.Tables.{is_below, dispatch};
ghost use Rattle.vg_core.specs.declared.program.Owner.TheVariants.{InClass};
ghost use Rattle.vg_core.specs.declared.program.Class.{Class};
ghost use Rattle.vg_core.specs.declared.program.Method.{Method};
ghost use Rattle.vg_core.specs.declared.program.Target.{Target};
ghost use Rattle.vg_renamed.specs.NamesTell.{Inherited, NamesTell};
ghost use Rattle.vg_renamed.specs.IsNamed.{KeysTell};
ghost use Rattle.vg_rules.specs.Signatures.{signatures_breach};
ghost use Rattle.vg_types_declared.specs.Apart.{have_members};
ghost use Rattle.vg_types_tables.specs.Declares.{IsClass};
ghost use Rattle.vg_core.specs.Naming.{Naming, keyed, named, named_classes, named_components, routines_at};
ghost use Rattle.vg_core.specs.Meaning.{defaults};
ghost use Rattle.vg_method_sizes.specs.Sizes.{sizes_in};
ghost use Rattle.vg_types_tables.specs.declared.declared.Declared.{Declared};
ghost use Rattle.vg_types_tables.specs.Views.{naming};
ghost use Rattle.vg_types_declared.specs.Named.{Keeps};
ghost use Rattle.vg_types_named.specs.Left.{Left};
ghost use Rattle.vg_types_named.specs.Targets.{targets_from, AreSigned};
ghost use Rattle.vg_types_named.specs.Routines.{AllRun, IsAdded};

/// The components, the classes and the fields of components that stand in the tables are those of the declarations, with names in place of numbers.
pub fn tables_named()
    ensures components { (texts : List (List ℕ)) (ds : Node) (d : Declared) → Keeps ds → Left texts ds d
        → named_components (naming texts d) d.tables 0 d.tables.components ≡ components_in ds }
    ensures classes { (texts : List (List ℕ)) (ds : Node) (d : Declared) → Keeps ds → Left texts ds d
        → named_classes (naming texts d) d.tables 0 d.tables.classes ≡ classes_in ds ds }
    ensures globals { (texts : List (List ℕ)) (ds : Node) (d : Declared) → Keeps ds → Left texts ds d
        → keyed (naming texts d) d.tables d.tables.globals (defaults d.tables d.tables.globals) ≡ globals_in ds }
{}

/// What can be called is what the declarations have to call, in order of the text: each class and each component, and then its methods, whose numbers
/// follow one another. Its signatures are those that are written.
pub fn targets_agree()
    ensures targets { (texts : List (List ℕ)) (ds : Node) (d : Declared) → Keeps ds → Left texts ds d → d.tables.targets ≡ targets_from 0 0 0 ds }
    ensures signatures { (texts : List (List ℕ)) (ds : Node) (d : Declared) → Keeps ds → Left texts ds d → AreSigned texts d 0 0 0 ds }
{}

/// The node count of each method in the tables is that of the body that is written, by its number in order of the text.
pub fn nodes_counted()
    ensures { (texts : List (List ℕ)) (ds : Node) (d : Declared) → Left texts ds d
        → map (λ y. y.nodes) d.tables.methods ≡ map (λ s. s.nodes) (sizes_in ds) }
{}

/// Where each target runs what is written for it, all that runs is what the text says. And so the program is that of the text, where it adds to the
/// tables what the text says; and where rule 6 is kept too, its names tell its numbers apart.
pub fn program_named()
    ensures routines { (n : Naming) (p : Program) (ds : Node) → AllRun n p ds 0 0 0 ds
        → routines_at n p (targets_from 0 0 0 ds) ≡ with_numbers 0 (routines_in ds ds) }
    ensures whole { (texts : List (List ℕ)) (ds : Node) (d : Declared) (p : Program) → Keeps ds → Left texts ds d → p.tables ≡ d.tables
        → IsAdded (naming texts d) p ds → program_of ds ≡ named (naming texts d) p }
    ensures told { (texts : List (List ℕ)) (ds : Node) (d : Declared) (p : Program) → Keeps ds → signatures_breach ds ds ≡ None
        → have_members ds ≡ true → Left texts ds d → p.tables ≡ d.tables → AllRun (naming texts d) p ds 0 0 0 ds → NamesTell (naming texts d) p }
{}

/// Where rule 6 is kept too, the names of the tables tell their numbers apart; so do those of a program that has a body for all that can be called.
pub fn names_tell()
    ensures fields { (texts : List (List ℕ)) (ds : Node) (d : Declared) → Keeps ds → signatures_breach ds ds ≡ None → have_members ds ≡ true
        → Left texts ds d → KeysTell (naming texts d) d.tables }
    ensures program { (texts : List (List ℕ)) (ds : Node) (d : Declared) (p : Program) → Keeps ds → signatures_breach ds ds ≡ None
        → have_members ds ≡ true → Left texts ds d → p.tables ≡ d.tables
        → ((t : Target) (g : Signature) → signature_of p.tables t ≡ Some g → (b : Body) × (body_of p t ≡ Some b)) → NamesTell (naming texts d) p }
{}

/// The names of classes and of components tell their numbers apart, methods have the names of their classes and of their selectors, what is inherited is
/// what the first class of a chain declares, and all that has a signature is among what can be called.
pub fn tables_tell()
    ensures classes { (texts : List (List ℕ)) (ds : Node) (d : Declared) → Keeps ds → Left texts ds d
        → (c e : ℕ) (k l : Class) → slice_get d.tables.classes c ≡ Some k → slice_get d.tables.classes e ≡ Some l
        → bytes_eq ((naming texts d).class c) ((naming texts d).class e) ≡ (c == e) }
    ensures above { (texts : List (List ℕ)) (ds : Node) (d : Declared) → Keeps ds → Left texts ds d
        → (c e : ℕ) → is_below d.tables c e ≡ true → IsClass d.tables e }
    ensures components { (texts : List (List ℕ)) (ds : Node) (d : Declared) → Keeps ds → Left texts ds d
        → (j k x y : ℕ) → slice_get d.tables.components j ≡ Some x → slice_get d.tables.components k ≡ Some y
        → bytes_eq ((naming texts d).component j) ((naming texts d).component k) ≡ (j == k) }
    ensures owners { (texts : List (List ℕ)) (ds : Node) (d : Declared) → Keeps ds → Left texts ds d
        → (i c : ℕ) (x : Method) → slice_get d.tables.methods i ≡ Some x → x.owner ≡ InClass c
        → ((naming texts d).method i).owner ≡ (naming texts d).class c }
    ensures selectors { (texts : List (List ℕ)) (ds : Node) (d : Declared) → Keeps ds → Left texts ds d
        → (i : ℕ) (x : Method) → slice_get d.tables.methods i ≡ Some x → (naming texts d).selector x.selector ≡ ((naming texts d).method i).name }
    ensures inherits { (texts : List (List ℕ)) (ds : Node) (d : Declared) → Keeps ds → Left texts ds d
        → (c s m : ℕ) → dispatch d.tables c s ≡ Some m → Inherited d.tables c s m }
    ensures targets { (texts : List (List ℕ)) (ds : Node) (d : Declared) → Keeps ds → Left texts ds d
        → (t : Target) (g : Signature) → signature_of d.tables t ≡ Some g → (i : ℕ) × (slice_get d.tables.targets i ≡ Some t) }
{}
