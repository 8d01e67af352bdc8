// What holds of types in the tables.
ghost use Rattle.std.specs.Prelude.{◌≡◌, ℕ, List, [], Some, slice_get};
ghost use Rattle.vg_tree.specs.declared.node.Node as held_node;
ghost use Rattle.vg_source.specs.Types as source;
ghost use Rattle.vg_core.specs.declared.types.CoreType.{CoreType};
ghost use Rattle.vg_core.specs.declared.types.CoreType.TheVariants.{ArrayType, FunctionType};
ghost use Rattle.vg_core.specs.declared.program.Tables.{Tables};
ghost use Rattle.vg_core.specs.Naming.{named_number, named_types, type_at};
ghost use Rattle.vg_core.specs.Tables.{IsRow};
ghost use Rattle.vg_types_tables.specs.declared.declared.Declared.{Declared};
ghost use Rattle.vg_types_tables.specs.Views.{naming, type_view, row_view};
ghost use Rattle.vg_types_tables.specs.Declares.{IsTypeNumber, IsKnown, IsFormed, Declares};

/// Two types of the tables that stand for one type are one.
pub fn one_type()
    ensures { (texts : List (List ℕ)) (root : held_node.Node) (d : Declared) (t u : CoreType) → Declares texts root d
        → IsKnown d.tables t → IsKnown d.tables u → type_view texts d t ≡ type_view texts d u → t ≡ u }
{}

/// What stands in the tables is known there.
pub fn known_entry()
    ensures { (p : Tables) (i : ℕ) (t : CoreType) → IsFormed p → slice_get p.types i ≡ Some t → IsKnown p t }
{}

/// A number in the tables stands for what its type stands for, and so do the types that are made of it.
pub fn type_views()
    ensures number { (texts : List (List ℕ)) (d : Declared) (i : ℕ) (t : CoreType) → IsFormed d.tables → slice_get d.tables.types i ≡ Some t
        → named_number (named_types (naming texts d) [] d.tables.types) i ≡ type_view texts d t }
    ensures by_number { (texts : List (List ℕ)) (d : Declared) (i : ℕ) → IsFormed d.tables → IsTypeNumber d.tables i
        → type_at (naming texts d) d.tables i ≡ named_number (named_types (naming texts d) [] d.tables.types) i }
    ensures array { (texts : List (List ℕ)) (d : Declared) (i : ℕ) (t : CoreType) → IsFormed d.tables → slice_get d.tables.types i ≡ Some t
        → type_view texts d (ArrayType i) ≡ source.ArrayType (type_view texts d t) }
    ensures row { (texts : List (List ℕ)) (d : Declared) (i : ℕ) (ts : List CoreType) → IsFormed d.tables → IsRow d.tables ts i
        → named_number (named_types (naming texts d) [] d.tables.types) i ≡ row_view texts d ts }
    ensures function { (texts : List (List ℕ)) (d : Declared) (i j : ℕ) (ts : List CoreType) (u : CoreType) → IsFormed d.tables
        → IsRow d.tables ts i → slice_get d.tables.types j ≡ Some u
        → type_view texts d (FunctionType i j) ≡ source.FunctionType (row_view texts d ts) (type_view texts d u) }
{}
