// What is found by name.
ghost use Rattle.std.specs.Prelude.{◌≡◌, true, ℕ, List, [], None};
ghost use Rattle.vg_syntax.specs.Tree.{Node};
ghost use Rattle.vg_rules.specs.Names.{names_breach, classes_breach};
ghost use Rattle.vg_rules.specs.Signatures.{signatures_breach};
ghost use Rattle.vg_types_names.specs.Declarations.{are_declarations};
ghost use Rattle.vg_types_tables.specs.declared.declared.Declared.{Declared};
ghost use Rattle.vg_types_heads.specs.declared.heads.Heads.{Heads};
ghost use Rattle.vg_types_heads.specs.Heads.{no_heads, with_heads};
ghost use Rattle.vg_core.specs.declared.program.Tables.{Tables};
ghost use Rattle.vg_types_interned.specs.declared.table.Types.{Types};
ghost use Rattle.vg_types_homes.specs.declared.homes.Homes.{Homes};
ghost use Rattle.vg_types_homes.specs.Homes.{HomesView, no_view, with_declarations};
ghost use Rattle.vg_types_declared.specs.Heads.{Agree};
ghost use Rattle.vg_types_declared.specs.Lists.{Lists};
ghost use Rattle.vg_types_declared.specs.Chains.{Chained};
ghost use Rattle.vg_types_declared.specs.Members.{Found};
ghost use Rattle.vg_types_declared.specs.Slots.{Slotted};
ghost use Rattle.vg_types_declared.specs.Placing.{Stands};
ghost use Rattle.vg_types_declared.specs.Built.{BuiltFormed};
ghost use Rattle.vg_types_declared.specs.Numbers.{Unnumbered};
ghost use Rattle.vg_types_declared.specs.Named.{Keeps, IsLeft, Members, Names, Owned, Params};
ghost use Rattle.vg_types_declared.specs.Dispatch.{Dispatches};
ghost use Rattle.vg_types_declared.specs.Inherits.{Inherits};
ghost use Rattle.vg_types_declared.specs.Apart.{have_members, AreApart};

/// Where the names of declarations differ, each class, component and device is found by its name, and each register of a device.
pub fn heads_agree()
    ensures found { (ds : Node) → names_breach [] ds ≡ None → are_declarations ds ≡ true → Agree ds (with_heads ds no_heads) }
    ensures places { (ds : Node) → names_breach [] ds ≡ None → are_declarations ds ≡ true → Lists ds (with_heads ds no_heads) }
{}

/// Where rule 5 is kept too, the chains of classes are those of their names, and no chain goes on without end.
pub fn chains_agree()
    ensures { (ds : Node) → names_breach [] ds ≡ None → are_declarations ds ≡ true → classes_breach ds ds ≡ None → Chained ds (with_heads ds no_heads) }
{}

/// The members that each class and each component declares itself are found by their names.
pub fn members_agree()
    ensures { (ds : Node) → Found ds (with_declarations ds no_view) }
{}

/// The members of a class and of those above it are found along its chain.
pub fn inherited_agree()
    ensures { (ds : Node) → names_breach [] ds ≡ None → are_declarations ds ≡ true → classes_breach ds ds ≡ None
        → Inherits ds (with_heads ds no_heads) (with_declarations ds no_view) }
{}

/// The method that a class declares itself under a name is the first of its own methods that has the name.
pub fn dispatch_agrees()
    ensures { (ds : Node) → Dispatches (with_declarations ds no_view) }
{}

/// Where what each declaration says for itself keeps the rules, no field of a class has the name of one of its methods.
pub fn members_apart()
    ensures { (ds : Node) → signatures_breach ds ds ≡ None → have_members ds ≡ true → AreApart (with_declarations ds no_view) }
{}

/// Each field stands at its slot, among the own fields of its class or among those of all components, and nothing else stands there.
pub fn slots_agree()
    ensures { (ds : Node) → Slotted (with_declarations ds no_view) }
{}

/// Where chains end by themselves, each field stands at one place in all objects that have it: behind what its class inherits, at its slot.
pub fn places_agree()
    ensures { (w : HomesView) → Stands w }
{}

/// The tables that are built of the names, the members and the types of a text keep what tables keep.
pub fn tables_formed()
    ensures { (texts : List (List ℕ)) (types : Types) (homes : Homes) (p : Tables) → BuiltFormed texts types homes p }
{}

/// Declarations, and the members of classes and components, are found in the tables by their names.
pub fn tables_find()
    ensures names { (texts : List (List ℕ)) (ds : Node) (types : Types) (heads : Heads) (homes : Homes) (d : Declared) → Keeps ds
        → IsLeft texts ds types heads homes d → Names texts ds d }
    ensures members { (texts : List (List ℕ)) (ds : Node) (types : Types) (heads : Heads) (homes : Homes) (d : Declared) → Keeps ds
        → IsLeft texts ds types heads homes d → Members texts ds d }
    ensures owned { (texts : List (List ℕ)) (ds : Node) (types : Types) (heads : Heads) (homes : Homes) (d : Declared) → Keeps ds
        → IsLeft texts ds types heads homes d → Owned texts d }
    ensures params { (texts : List (List ℕ)) (ds : Node) (types : Types) (heads : Heads) (homes : Homes) (d : Declared) → Keeps ds
        → IsLeft texts ds types heads homes d → Params texts ds d }
{}

/// The numbers of nodes say nothing of names and members.
pub fn numbers_aside()
    ensures { (ds : Node) → Unnumbered ds }
{}
