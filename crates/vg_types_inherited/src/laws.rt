// What overrides what, where the rules are kept.
ghost use Rattle.std.specs.Prelude.{◌≡◌, ℕ, List, None};
ghost use Rattle.vg_tree.specs.declared.node.Node as held_node;
ghost use Rattle.vg_rules.specs.Inherited.{inherited_breach};
ghost use Rattle.vg_core.specs.declared.program.Tables.{Tables};
ghost use Rattle.vg_core.specs.Typing.{WellFormed};
ghost use Rattle.vg_types_tables.specs.declared.declared.Declared.{Declared};
ghost use Rattle.vg_types_tables.specs.Views.{declarations_at};
ghost use Rattle.vg_types_tables.specs.Declares.{Declares, IsFormed};
ghost use Rattle.vg_types_inherited.specs.Dispatches.{Dispatches, AllOverride};

/// Where the rules on what is inherited are kept, a class has in place of an inherited method one of the same function type.
pub fn overrides_kept()
    ensures { (texts : List (List ℕ)) (root : held_node.Node) (d : Declared) → Declares texts root d → Dispatches texts root d
        → inherited_breach (declarations_at texts root) (declarations_at texts root) ≡ None → AllOverride d.tables }
{}

/// Tables that keep all but what overrides what, and keep that too, are well formed.
pub fn formed_well()
    ensures { (p : Tables) → IsFormed p → AllOverride p → WellFormed p }
{}
