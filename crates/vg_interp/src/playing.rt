// A run whose events go out.
ghost use Rattle.std.specs.Prelude.{◌≡◌, ◌+◌, ◌<◌, false, OnOk, length};
ghost use Rattle.vg_interp_run.specs.Run.{world};
ghost use Rattle.vg_outlet.specs.Puts.{moment, PutsOf};

use std::alloc::Global;
use vg_base::NoMemory;
use vg_interp_run::Run;
use vg_io::Sink;
use vg_outlet::Outlet;

/// A run, and what went out of it.
#[derive(Drop)]
pub struct Playing {
    pub run: Run,
    pub outlet: Outlet,
}

impl Playing {
    /// Nothing went out of the run. It takes no memory.
    pub fn new(alloc: Global, run: Run) -> Self
        ensures run { result.run ≡ run }
        ensures put { result.outlet.put ≡ 0 }
        ensures failed { result.outlet.failed ≡ false }
    {
        Playing {
            run,
            outlet: Outlet::new(alloc),
        }
    }

    /// Where 512 events wait, or more, their lines are put. It is an error as well where a put fails.
    #[inline(always)]
    pub fn offer<O: Sink>(&mut self, out: &mut O) -> Result<(), NoMemory>
        ensures run { self.new.run ≡ self.old.run }
        ensures puts { PutsOf (moment (O.told out.old) (O.faults out.old) self.old.outlet) (moment (O.told out.new) (O.faults out.new) self.new.outlet)
            (world self.new.run).outside.trace }
        ensures few { OnOk result (length (world self.new.run).outside.trace < self.new.outlet.put + 512) }
    {
        self.outlet.offer(self.run.around.events(), out)
    }
}
