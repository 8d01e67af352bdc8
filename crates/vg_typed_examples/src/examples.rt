// What is known of the examples.
ghost use Rattle.vg_core.specs.Naming.{naming_of};
ghost use Rattle.vg_core.specs.Typing.{WellTyped};
ghost use Rattle.vg_renamed.specs.NamesTell.{NamesTell};
ghost use Rattle.vg_typed_examples.specs.StoreToNull.{texts, tables, store_to_null};

/// The program with a store to a field of null is well typed, and its names tell its numbers apart.
pub fn store_to_null_is_typed()
    ensures typed { WellTyped store_to_null }
    ensures names { NamesTell (naming_of texts tables) store_to_null }
{}
