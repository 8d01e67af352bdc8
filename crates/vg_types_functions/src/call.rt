// Calls of delegates.
ghost use Rattle.std.specs.Prelude.{◌≡◌, ℕ, List, Some, slice_get};
ghost use Rattle.vg_source.specs.Steps as source;
ghost use Rattle.vg_core.specs.declared.types.CoreType.{CoreType};
ghost use Rattle.vg_core.specs.declared.types.CoreType.TheVariants.{FunctionType};
ghost use Rattle.vg_core.specs.declared.step.Step.TheVariants.{CallValue};
ghost use Rattle.vg_core.specs.Tables.{IsRow};
ghost use Rattle.vg_types_tables.specs.declared.declared.Declared.{Declared};
ghost use Rattle.vg_types_tables.specs.Views.{type_view, row_view, step_view};
ghost use Rattle.vg_types_tables.specs.Declares.{IsFormed};

/// The call of a delegate stands for one of its parameters' types and its result's type.
pub fn call_view()
    ensures { (texts : List (List ℕ)) (d : Declared) (at count f ps r : ℕ) (ts : List CoreType) (t : CoreType) → IsFormed d.tables
        → slice_get d.tables.types f ≡ Some (FunctionType ps r) → IsRow d.tables ts ps → slice_get d.tables.types r ≡ Some t
        → step_view texts d (CallValue at count f) ≡ source.CallValue at count (row_view texts d ts) (type_view texts d t) }
{}
