// A delegate in an array.
ghost use Rattle.vg_source.specs.Program.{source_of};
ghost use Rattle.vg_examples.specs.Delegate.{delegate};
ghost use Rattle.vg_live_source.specs.Chains.{IsWhy};
ghost use Rattle.vg_live_texts.specs.Delegated.{heap, hit, hit_lines};

/// The method that only a delegate in an array names is live: by the array, which is live by the field of the component that holds it,
/// which is live by the method of the entry `main`, which reads it.
pub fn why_hit_is_live()
    ensures { IsWhy (source_of delegate) heap hit hit_lines }
{}
