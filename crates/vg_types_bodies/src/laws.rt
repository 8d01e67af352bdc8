// What bodies are in the source program, and that they are typed. The bodies of these functions are empty: their contracts are laws of the
// definitions.
ghost use Rattle.std.specs.Prelude.{ℕ, List};
ghost use Rattle.vg_tree.specs.declared.node.Node as held_node;
ghost use Rattle.vg_types_tables.specs.declared.declared.Declared.{Declared};
ghost use Rattle.vg_types_bodies.specs.Routines.{MethodIs, MakingIs, StartIs, MakingTyped, StartTyped};

/// The body of a method is the routine of its declaration.
pub fn methods_are()
    ensures { (texts : List (List ℕ)) (root : held_node.Node) (d : Declared) → MethodIs texts root d }
{}

/// What is made is the construction of its class.
pub fn makings_are()
    ensures { (texts : List (List ℕ)) (root : held_node.Node) (d : Declared) → MakingIs texts root d }
{}

/// What starts a component is its initialisation.
pub fn starts_are()
    ensures { (texts : List (List ℕ)) (root : held_node.Node) (d : Declared) → StartIs texts root d }
{}

/// What is made is typed.
pub fn makings_are_typed()
    ensures { MakingTyped }
{}

/// What starts a component is typed.
pub fn starts_are_typed()
    ensures { StartTyped }
{}
