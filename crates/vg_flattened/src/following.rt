// The law that a flattened program follows the packed one.
ghost use Rattle.std.specs.Prelude.{ℕ};
ghost use Rattle.vg_codes.specs.Codes.{Codes};
ghost use Rattle.vg_firm.specs.Program.{Program as FirmProgram};
ghost use Rattle.vg_lin.specs.Program.{Program};
ghost use Rattle.vg_flatten_shapes.specs.declared.layout.Layout.{Layout};
ghost use Rattle.vg_flatten.specs.Flattened.{AreFlat};
ghost use Rattle.vg_flattened.specs.Runs.{FollowsPacked};

/// A program of linear code whose procedures are packed ones, flattened, does what the packed program does: where that is over for a
/// legal reason, it comes to the same ending in the same outside, having opened the same calls, after at least one step
/// that counts for each tick.
pub fn flattened_follows()
    ensures { (k : Codes) (lay : Layout) (f : FirmProgram) (p : Program) → AreFlat k lay f p → FollowsPacked k f p }
{}
