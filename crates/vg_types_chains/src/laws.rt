// What holds of chains where no class is above itself.
ghost use Rattle.std.specs.Prelude.{ℕ, List, Option};
ghost use Rattle.vg_types_chains.specs.Chains.{AreAbove, Close};

/// Where no class is above itself, chains end by themselves: that of a class is the class and then the chain of the class above it.
pub fn chains_close()
    ensures { (most : ℕ) (above : List (Option ℕ)) → AreAbove most above → Close most above }
{}
