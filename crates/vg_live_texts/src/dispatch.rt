// A method that a subclass has in place of another.
ghost use Rattle.vg_source.specs.Program.{source_of};
ghost use Rattle.vg_examples.specs.Dispatch.{dispatch};
ghost use Rattle.vg_live_source.specs.Chains.{IsWhy};
ghost use Rattle.vg_live_texts.specs.Dispatched.{heap, own, own_lines};

/// The method of the subclass is live: the method of the entry `main` names it on the class above, and a live object is of the subclass.
pub fn why_own_method_is_live()
    ensures { IsWhy (source_of dispatch) heap own own_lines }
{}
