// The law on a worked program.
ghost use Rattle.vg_lin.specs.Sessions.{FollowsSessions};
ghost use Rattle.vg_lin_rows.specs.Linear.{start_call, linear};
ghost use Rattle.vg_lin_rows.specs.Standing.{bodies};

/// The worked program of linear code follows its structured bodies, for all reads, interrupts and clocks.
pub fn example_follows()
    ensures { FollowsSessions (linear 1) bodies start_call }
{}
